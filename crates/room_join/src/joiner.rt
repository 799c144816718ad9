//! A client that has joined a room.
ghost use Rattle.std.specs.Prelude.{◌≡◌, false, [], ◌∷◌, ◌++◌, map, Ok, IfOk, OnOk};
ghost use Rattle.client_link.specs.declared.saying.Saying.TheVariants as say;
ghost use Rattle.room_model.specs.Replicas.{new_client, schema_of, push_all};
ghost use Rattle.room_model.specs.Schemas.{WorldSchemas};
ghost use Rattle.side_effects.specs.declared.fault.EditFault.{EditFault};
ghost use Rattle.peer_schemas.specs.Clients.{AreOfTables};
ghost use Rattle.sync_client.specs.Calls.{ClientState, asking, connect_answer};
ghost use Rattle.sync_peer.specs.Standing as peer_of;
ghost use Rattle.sync_peer.specs.Viewing.{watched, IsClosed, store_of};
ghost use Rattle.tl_tables.specs.Tables.{IsVersion};
ghost use Rattle.rooms_val.specs.View.{data_of};
ghost use Rattle.live_views.specs.Telling.{by_number};
ghost use Rattle.wire_text.specs.Feeding.{empty};
ghost use Rattle.room_join.specs.Joiners as model;
ghost use Rattle.room_join.specs.Joiners.{acts, hello, new_joiner, pushes, after_pushes};
ghost use Rattle.room_join.specs.Joiners.{told_lines, after_told, told_line, end_line, out_line};
ghost use Rattle.room_join.specs.Joiners.{on_edit, on_presence, on_mark, on_undo, on_redo};
ghost use Rattle.room_join.specs.Joiners.{on_bail, on_watch, on_query, on_show};

use crate::act::Act;
use crate::join_line::JoinLine;
use client_link::{LONGEST_REPLY, Saying};
use fault_texts::edit_fault_text;
use field_ops::Diff;
use link_texts::Join;
use live_views::{WatchFault, WatchId};
use peer_schemas::edit_fault;
use rec_format::{OutLine, PrintedLine};
use room_model::IdList;
use room_model::fault::ConnectFault;
use rooms_val::{Mem, OutOfMemory, Steps, Text, Val};
use shape_tree::{Query, View};
use std::alloc::Global;
use std::sync::ledger::Ledger;
use sync_msgs::ClientMessage;
use sync_peer::Peer;
use tl_tables::TableFault;
use undo_marks::BailFault;
use wire_text::Assembler;

/// The lines that an event prints, or the text of why it can't happen.
pub type Answer = Result<Vec<JoinLine>, Text>;

/// A client that has joined a room. Contracts say for which client of the definitions it stands.
#[derive(Drop)]
pub struct Joiner {
    // The client by itself. It watches by the numbers from 0 on, and no transaction of its store is open.
    pub(crate) peer: Peer,
    // What came of a message that isn't whole.
    pub(crate) assembler: Assembler,
    // Whether it was told that its link has ended.
    pub(crate) is_lost: bool,
}

impl Joiner {
    ghost use Rattle.room_join.specs.Standing.{Stands, Answers};

    /// A client of a version of the tables that asks to be connected, and what it says to join a room.
    /// It costs the schema.
    pub fn begin(alloc: Global, version: u32, room: u32) -> Mem<(Joiner, Vec<Saying>)>
        requires { IsVersion version }
        ensures stands { IfOk result (λ begun. (schemas : WorldSchemas EditFault)
            → AreOfTables schemas → Stands schemas (new_joiner version) begun.0) }
        ensures said { IfOk result (λ begun. (schemas : WorldSchemas EditFault)
            → AreOfTables schemas → begun.1.items ≡ hello schemas room version) }
    {
        let mut peer = new_peer(alloc, version)?;
        let asked = ask(alloc, &mut peer)?;
        let said = hello(alloc, room, asked)?;
        Ok((with_peer(peer), said))
    }

    /// Lets the client do something by itself. It costs what is done.
    pub fn act<L: Ledger>(&mut self, alloc: Global, act: Act, steps: &mut Steps<L>) -> Mem<Answer>
        ensures { IfOk result (λ answer. (schemas : WorldSchemas EditFault)
            (joiner : model.Joiner) → Stands schemas joiner self.old
            → Answers schemas (acts schemas act joiner) answer self.new) }
    {
        match act {
            Act::Edit(diff) => self.edit(alloc, &diff, steps),
            Act::Presence(stored) => self.presence(alloc, stored),
            Act::Mark(name) => self.mark(alloc, name),
            Act::Undo => self.undo(alloc, steps),
            Act::Redo => self.redo(alloc, steps),
            Act::Bail(name) => self.bail(alloc, &name, steps),
            Act::Watch(view) => self.watch(alloc, &view),
            Act::Query(type_name, query) => self.query(alloc, &type_name, &query),
            Act::Show => self.show(alloc),
        }
    }

    // It edits its document, as the edit is completed.
    fn edit<L: Ledger>(&mut self, alloc: Global, wanted: &Diff, steps: &mut Steps<L>) -> Mem<Answer>
        ensures { IfOk result (λ answer. (schemas : WorldSchemas EditFault)
            (joiner : model.Joiner) → Stands schemas joiner self.old
            → Answers schemas (on_edit schemas wanted.now joiner) answer self.new) }
    {
        match self.peer.edit(alloc, wanted, steps) {
            Ok(()) => Ok(Ok(Vec::new(alloc))),
            Err(fault) => Ok(Err(edit_fault_text(alloc, &fault)?)),
        }
    }

    // It sets the record by which others see it.
    fn presence(&mut self, alloc: Global, stored: Val) -> Mem<Answer>
        ensures { IfOk result (λ answer. (schemas : WorldSchemas EditFault)
            (joiner : model.Joiner) → Stands schemas joiner self.old
            → Answers schemas (on_presence schemas (data_of stored) joiner) answer self.new) }
    {
        match self.peer.presence(alloc, stored) {
            Ok(()) => Ok(Ok(Vec::new(alloc))),
            Err(fault) => Ok(Err(edit_fault_text(alloc, &edit_fault(fault))?)),
        }
    }

    // It makes a mark.
    fn mark(&mut self, alloc: Global, name: Text) -> Mem<Answer>
        ensures { IfOk result (λ answer. (schemas : WorldSchemas EditFault)
            (joiner : model.Joiner) → Stands schemas joiner self.old
            → Answers schemas (on_mark name joiner) answer self.new) }
    {
        self.peer.mark(name)?;
        Ok(Ok(Vec::new(alloc)))
    }

    // It takes its edits back to its last mark.
    fn undo<L: Ledger>(&mut self, alloc: Global, steps: &mut Steps<L>) -> Mem<Answer>
        ensures { IfOk result (λ answer. (schemas : WorldSchemas EditFault)
            (joiner : model.Joiner) → Stands schemas joiner self.old
            → Answers schemas (on_undo schemas joiner) answer self.new) }
    {
        let done = self.peer.undo(alloc, steps)?;
        Ok(Ok(one_line(alloc, out_line(OutLine::Undo { client: 0, done }))?))
    }

    // It does again what it took back last.
    fn redo<L: Ledger>(&mut self, alloc: Global, steps: &mut Steps<L>) -> Mem<Answer>
        ensures { IfOk result (λ answer. (schemas : WorldSchemas EditFault)
            (joiner : model.Joiner) → Stands schemas joiner self.old
            → Answers schemas (on_redo schemas joiner) answer self.new) }
    {
        let done = self.peer.redo(alloc, steps)?;
        Ok(Ok(one_line(alloc, out_line(OutLine::Redo { client: 0, done }))?))
    }

    // It takes its edits back to its last mark of a name, and forgets them.
    fn bail<L: Ledger>(&mut self, alloc: Global, name: &Text, steps: &mut Steps<L>) -> Mem<Answer>
        ensures { IfOk result (λ answer. (schemas : WorldSchemas EditFault)
            (joiner : model.Joiner) → Stands schemas joiner self.old
            → Answers schemas (on_bail schemas name.now joiner) answer self.new) }
    {
        match self.peer.bail(alloc, name.as_str(), steps) {
            Ok(()) => Ok(Ok(Vec::new(alloc))),
            Err(BailFault::NoMark) => Ok(Err(Text::of(alloc, "NoMark")?)),
            Err(BailFault::OutOfMemory) => Err(OutOfMemory),
        }
    }

    // It watches a further view.
    fn watch(&mut self, alloc: Global, view: &View) -> Mem<Answer>
        ensures { IfOk result (λ answer. (schemas : WorldSchemas EditFault)
            (joiner : model.Joiner) → Stands schemas joiner self.old
            → Answers schemas (on_watch view.now joiner) answer self.new) }
    {
        match self.peer.watch(alloc, view) {
            Ok(_) => Ok(Ok(Vec::new(alloc))),
            Err(WatchFault::Full) => Ok(Err(Text::of(alloc, "Limit")?)),
            Err(WatchFault::OutOfMemory) => Err(OutOfMemory),
        }
    }

    // It asks for the ids of the records of a type, among those that it shows, that meet a query.
    fn query(&self, alloc: Global, type_name: &Text, query: &Query) -> Mem<Answer>
        ensures { IfOk result (λ answer. (schemas : WorldSchemas EditFault)
            (joiner : model.Joiner) → Stands schemas joiner self.now
            → Answers schemas (on_query schemas type_name.now query.now joiner) answer self.now) }
    {
        let ids = IdList::of(self.peer.query(alloc, type_name.as_str(), query)?);
        Ok(Ok(one_line(
            alloc,
            JoinLine::Printed(PrintedLine::Ids { client: 0, ids }),
        )?))
    }

    // It shows what it has. It costs a copy of the document.
    fn show(&self, alloc: Global) -> Mem<Answer>
        ensures { IfOk result (λ answer. (schemas : WorldSchemas EditFault)
            (joiner : model.Joiner) → Stands schemas joiner self.now
            → Answers schemas (on_show schemas joiner) answer self.now) }
    {
        let shown = OutLine::Show {
            client: 0,
            clock: self.peer.reached(),
            doc: self.peer.document(alloc)?,
            others: self.peer.others(alloc)?,
            owed: self.peer.owed() as u64,
        };
        Ok(Ok(one_line(alloc, out_line(shown))?))
    }

    /// Whether it was told that its link has ended; then nothing is to be waited for.
    pub fn has_lost(&self) -> bool
        ensures { (schemas : WorldSchemas EditFault) (joiner : model.Joiner)
            → Stands schemas joiner self.now → result ≡ joiner.is_lost }
    {
        self.is_lost
    }

    /// The lines at the end of a script.
    pub fn end(&self, alloc: Global) -> Mem<Vec<JoinLine>>
        ensures { IfOk result (λ lines. (schemas : WorldSchemas EditFault)
            (joiner : model.Joiner) → Stands schemas joiner self.now
            → lines.items ≡ end_line joiner ∷ []) }
    {
        one_line(
            alloc,
            JoinLine::End {
                clock: self.peer.reached(),
                owed: self.peer.owed() as u64,
            },
        )
    }

    /// What it says after an event: each push that it can make, the oldest first. It costs a copy of what
    /// it pushes. Where memory is refused nothing is said of the client.
    pub fn push(&mut self, alloc: Global) -> Mem<Vec<Saying>>
        ensures { IfOk result (λ said. (schemas : WorldSchemas EditFault)
            (joiner : model.Joiner) → Stands schemas joiner self.old
            → (said.items ≡ pushes schemas joiner)
            × Stands schemas (after_pushes schemas joiner) self.new) }
    {
        say_pushes(alloc, &mut self.peer)
    }

    /// The lines of an event, and behind them those by which the client tells the views that it watches,
    /// as far as they changed. It costs a look-up for each watch on which nothing hangs that changed, and
    /// what is told.
    pub fn tell<L: Ledger>(
        &mut self,
        alloc: Global,
        lines: Vec<JoinLine>,
        steps: &mut Steps<L>,
    ) -> Mem<Vec<JoinLine>>
        ensures { IfOk result (λ all. (schemas : WorldSchemas EditFault)
            (joiner : model.Joiner) → Stands schemas joiner self.old
            → (all.items ≡ lines.items ++ told_lines schemas joiner)
            × Stands schemas (after_told schemas joiner) self.new) }
    {
        let told = self.peer.told(alloc, steps)?;
        add_told(lines, told)
    }
}

// A client that has just asked, and to which nothing came.
fn with_peer(peer: Peer) -> Joiner
    ensures { result ≡ record { peer = peer; assembler = empty LONGEST_REPLY; is_lost = false } }
{
    Joiner {
        peer,
        assembler: Assembler::new(LONGEST_REPLY),
        is_lost: false,
    }
}

// What is said to join a room.
fn hello(alloc: Global, room: u32, asked: ClientMessage) -> Mem<Vec<Saying>>
    ensures { IfOk result (λ said. said.items
        ≡ say.Join (record { readonly = false; room = room }) ∷ say.Message asked ∷ []) }
{
    let mut said = Vec::new(alloc);
    said.push(Saying::Join(Join {
        readonly: false,
        room,
    }))?;
    said.push(Saying::Message(asked))?;
    Ok(said)
}

// A client of a version that did nothing.
fn new_peer(alloc: Global, version: u32) -> Mem<Peer>
    requires { IsVersion version }
    ensures stands { IfOk result (λ peer. (schemas : WorldSchemas EditFault) → AreOfTables schemas
        → peer_of.Stands schemas (record { base = []; client = new_client version }) peer) }
    ensures unwatched { IfOk result (λ peer. watched peer ≡ []) }
    ensures closed { IfOk result IsClosed }
{
    match Peer::new(alloc, version) {
        Ok(peer) => Ok(peer),
        Err(TableFault::NoSuchVersion) => unreachable!(),
        Err(TableFault::OutOfMemory) => Err(OutOfMemory),
    }
}

// A client that did nothing asks to be connected: its first request has the number 0. It fails only where memory runs out.
fn ask(alloc: Global, peer: &mut Peer) -> Mem<ClientMessage>
    ensures asked { IfOk result (λ said. (schemas : WorldSchemas EditFault) (state : ClientState)
        → peer_of.Stands schemas state peer.old
        → connect_answer (schema_of schemas state.client).versions 0 state.client ≡ Ok said) }
    ensures stands { OnOk result ((schemas : WorldSchemas EditFault) (state : ClientState)
        → peer_of.Stands schemas state peer.old
        → peer_of.Stands schemas (record state { client = asking 0 state.client }) peer.new) }
    ensures store { store_of peer.new ≡ store_of peer.old }
{
    match peer.connect(alloc, 0) {
        Ok(said) => Ok(said),
        Err(ConnectFault::AlreadyOpen) => Err(OutOfMemory),
        Err(ConnectFault::Refused(_)) => Err(OutOfMemory),
        Err(ConnectFault::OutOfMemory) => Err(OutOfMemory),
    }
}

// What a client can push, the oldest first. Where memory is refused nothing is said of the client.
fn say_pushes(alloc: Global, peer: &mut Peer) -> Mem<Vec<Saying>>
    ensures pushes { IfOk result (λ said. (schemas : WorldSchemas EditFault) (state : ClientState)
        → peer_of.Stands schemas state peer.old
        → (said.items ≡ map say.Message (push_all state.client).messages)
        × peer_of.Stands schemas (record state {
          client = (push_all state.client).client;
        }) peer.new) }
    ensures store { store_of peer.new ≡ store_of peer.old }
{
    let mut said = Vec::new(alloc);
    let owed = peer.owed();
    'pushes: for _ in 0..owed {
        match peer.next_push(alloc)? {
            Some(message) => said.push(Saying::Message(message))?,
            None => return Ok(said),
        }
    }
    Ok(said)
}

// Adds what a client tells, each value by the number of its watch.
fn add_told(mut lines: Vec<JoinLine>, told: Vec<(WatchId, Val)>) -> Mem<Vec<JoinLine>>
    ensures { IfOk result (λ all. all.items ≡ lines.items ++ map told_line (by_number told.items)) }
{
    'told: for one in told {
        let (watch, told) = one;
        lines.push(JoinLine::Printed(PrintedLine::Told {
            client: 0,
            told,
            watch: watch.number,
        }))?;
    }
    Ok(lines)
}

// A line that recordings print too.
fn out_line(line: OutLine) -> JoinLine
    ensures { result ≡ out_line line }
{
    JoinLine::Printed(PrintedLine::World(line))
}

/// One line.
pub(crate) fn one_line(alloc: Global, line: JoinLine) -> Mem<Vec<JoinLine>>
    ensures { IfOk result (λ lines. lines.items ≡ line ∷ []) }
{
    let mut lines = Vec::new(alloc);
    lines.push(line)?;
    Ok(lines)
}
