//! What an event does, as its field `do` says.
ghost use Rattle.std.specs.Prelude.{◌≡◌, IfSome, IfNone};
ghost use Rattle.rec_format.specs.Verbs.{word_of};
ghost use Rattle.rec_format.specs.declared.verb.Verb.{Verb};

/// What an event does.
#[derive(Clone, Copy, Debug, PartialEq, Eq)]
pub enum Verb {
    Client,
    Connect,
    Edit,
    Presence,
    Mark,
    Undo,
    Redo,
    Bail,
    Copy,
    Paste,
    Handle,
    Send,
    Deliver,
    Cut,
    Lose,
    Watch,
    Query,
    Show,
    End,
}

impl Verb {
    /// Its word.
    pub fn word(self) -> &'static str
        ensures { result.now ≡ word_of self }
    {
        match self {
            Verb::Client => "client",
            Verb::Connect => "connect",
            Verb::Edit => "edit",
            Verb::Presence => "presence",
            Verb::Mark => "mark",
            Verb::Undo => "undo",
            Verb::Redo => "redo",
            Verb::Bail => "bail",
            Verb::Copy => "copy",
            Verb::Paste => "paste",
            Verb::Handle => "handle",
            Verb::Send => "send",
            Verb::Deliver => "deliver",
            Verb::Cut => "cut",
            Verb::Lose => "lose",
            Verb::Watch => "watch",
            Verb::Query => "query",
            Verb::Show => "show",
            Verb::End => "end",
        }
    }

    /// The verb of a word. `None` exactly where the word is that of none.
    pub fn of(word: &str) -> Option<Verb>
        ensures found { IfSome result (λ verb. word.now ≡ word_of verb) }
        ensures only { IfNone result ((verb : Verb) → ¬ (word.now ≡ word_of verb)) }
    {
        match word {
            "client" => Some(Verb::Client),
            "connect" => Some(Verb::Connect),
            "edit" => Some(Verb::Edit),
            "presence" => Some(Verb::Presence),
            "mark" => Some(Verb::Mark),
            "undo" => Some(Verb::Undo),
            "redo" => Some(Verb::Redo),
            "bail" => Some(Verb::Bail),
            "copy" => Some(Verb::Copy),
            "paste" => Some(Verb::Paste),
            "handle" => Some(Verb::Handle),
            "send" => Some(Verb::Send),
            "deliver" => Some(Verb::Deliver),
            "cut" => Some(Verb::Cut),
            "lose" => Some(Verb::Lose),
            "watch" => Some(Verb::Watch),
            "query" => Some(Verb::Query),
            "show" => Some(Verb::Show),
            "end" => Some(Verb::End),
            _ => None,
        }
    }
}
