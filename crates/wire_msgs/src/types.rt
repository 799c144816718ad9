//! The types of messages, each by the text under `type`.
ghost use Rattle.std.specs.Prelude.{◌≡◌, IfSome, IfNone};
ghost use Rattle.wire_msgs.specs.Types.{client_word, server_word};
ghost use Rattle.wire_msgs.specs.declared.types.ClientType.{ClientType};
ghost use Rattle.wire_msgs.specs.declared.types.ServerType.{ServerType};

/// The type of a message of a client.
#[derive(Clone, Copy, Debug, PartialEq, Eq)]
pub enum ClientType {
    Connect,
    Push,
    Ping,
}

/// The type of a message of a room.
#[derive(Clone, Copy, Debug, PartialEq, Eq)]
pub enum ServerType {
    Connect,
    Data,
    Pong,
}

impl ClientType {
    /// The text of the type.
    pub fn word(self) -> &'static str
        ensures { result.now ≡ client_word self }
    {
        match self {
            ClientType::Connect => "connect",
            ClientType::Push => "push",
            ClientType::Ping => "ping",
        }
    }

    /// The type of a text. `None` exactly where the text is that of no type.
    pub fn of(word: &str) -> Option<ClientType>
        ensures found { IfSome result (λ kind. word.now ≡ client_word kind) }
        ensures only { IfNone result ((kind : ClientType) → ¬ (word.now ≡ client_word kind)) }
    {
        match word {
            "connect" => Some(ClientType::Connect),
            "push" => Some(ClientType::Push),
            "ping" => Some(ClientType::Ping),
            _ => None,
        }
    }
}

impl ServerType {
    /// The text of the type.
    pub fn word(self) -> &'static str
        ensures { result.now ≡ server_word self }
    {
        match self {
            ServerType::Connect => "connect",
            ServerType::Data => "data",
            ServerType::Pong => "pong",
        }
    }

    /// The type of a text. `None` exactly where the text is that of no type.
    pub fn of(word: &str) -> Option<ServerType>
        ensures found { IfSome result (λ kind. word.now ≡ server_word kind) }
        ensures only { IfNone result ((kind : ServerType) → ¬ (word.now ≡ server_word kind)) }
    {
        match word {
            "connect" => Some(ServerType::Connect),
            "data" => Some(ServerType::Data),
            "pong" => Some(ServerType::Pong),
            _ => None,
        }
    }
}
