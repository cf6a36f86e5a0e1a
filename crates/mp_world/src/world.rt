//! A server and its clients, with the links between them.
ghost use Rattle.std.specs.Prelude.{◌≡◌, ◌≢◌, ℕ, ℤ, ◌∷◌, [], List, true, false, ◌↔◌, IfOk, OnOk, OnErr, Err, Some, option_map};
ghost use Rattle.scene_model.specs.declared.world.WorldEvent.{WorldEvent as EventOf};
ghost use Rattle.scene_model.specs.Valid.{IsValidScene};
ghost use Rattle.peer_core.specs.Forms.{packet_form};
ghost use Rattle.world_model.specs.World.{is_in};
ghost use Rattle.world_model.specs.Happens.{world};
ghost use Rattle.world_model.specs.Answers.{happened, overflows, world_answer};
ghost use Rattle.world_model.specs.Replicas.{is_joined, reported};
ghost use Rattle.mp_world.specs.declared.world.WorldStop.TheVariants as stop;
ghost use Rattle.mp_world.specs.declared.world.ReportNo.TheVariants as report_no;
ghost use Rattle.world_steps.specs.Sound.{has_sound_values, is_built_event};
ghost use Rattle.world_steps.specs.Steps.{has_peer, is_over as is_past, is_spent, kept_at, kept_report, live_parts, made as made_of, scene_of};
ghost use Rattle.world_steps.specs.Scripts.{TellsValues};
ghost use Rattle.world_steps.specs.Stands.{StandsForScript};

use crate::client::{Client, client_place};
use crate::connect::connect;
use crate::deliver::deliver;
use crate::flight::is_over;
use crate::going::go_down;
use crate::operate::operate;
use crate::steps::{SERVER, is_server};
use crate::texts::names_are_texts;
use gd_variant::OutOfMemory;
use peer_core::{Peer, Stop};
use scene_model::{Report, Scene, WorldEvent, WorldOutcome};
use std::alloc::Global;
use std::marker::Model;

/// Why a world gives no answer.
#[derive(Clone, Copy, Debug, Drop, PartialEq, Eq)]
pub enum WorldStop {
    /// Memory ran out; the world is spent.
    OutOfMemory,
    /// An earlier step ran out of memory, or of room in flight.
    Spent,
    /// All packets ever put in flight, those of this event included, have together more than 536,870,912 bytes; the world is spent.
    PoolFull,
}

/// Why there is no report.
#[derive(Clone, Copy, Debug, Drop, PartialEq, Eq)]
pub enum ReportNo {
    /// That peer isn't up.
    NoPeer,
    Spent,
    OutOfMemory,
}

/// Lets an event happen in a world that isn't spent.
fn take(
    server: &mut Peer,
    clients: &mut Vec<Client>,
    come: &mut u32,
    put: &mut u64,
    alloc: Global,
    event: WorldEvent,
) -> Result<WorldOutcome, OutOfMemory>
    requires built { is_built_event event ≡ true }
    requires sound { has_sound_values event ≡ true }
    requires valid { IsValidScene server.old.who.scene }
    ensures { IfOk result (λ o. record { outcome = o; parts = live_parts server.new come.new put.new clients.new.items } ≡ made_of (live_parts server.old come.old put.old clients.old.items) event) }
{
    match event {
        WorldEvent::Connect => connect(server, clients, come, put, alloc),
        WorldEvent::Op { peer, op } => operate(server, clients, put, alloc, &peer, op),
        WorldEvent::Rel { from, to } => deliver(server, clients, put, alloc, &from, &to),
        WorldEvent::Down(peer) => go_down(server, clients, put, alloc, &peer),
        WorldEvent::Loose { .. } | WorldEvent::Forge { .. } => unreachable!(),
    }
}

/// Lets an event happen in a world that isn't spent, where all that is ever put in flight has room then.
fn take_within(
    server: &mut Peer,
    clients: &mut Vec<Client>,
    come: &mut u32,
    put: &mut u64,
    alloc: Global,
    event: WorldEvent,
) -> Result<WorldOutcome, WorldStop>
    requires built { is_built_event event ≡ true }
    requires sound { has_sound_values event ≡ true }
    requires valid { IsValidScene server.old.who.scene }
    ensures made { IfOk result (λ o. record { outcome = o; parts = live_parts server.new come.new put.new clients.new.items } ≡ made_of (live_parts server.old come.old put.old clients.old.items) event) }
    ensures room { IfOk result (λ _. is_past (made_of (live_parts server.old come.old put.old clients.old.items) event) ≡ false) }
    ensures full { result ≡ Err stop.PoolFull → is_past (made_of (live_parts server.old come.old put.old clients.old.items) event) ≡ true }
    ensures live { result ≢ Err stop.Spent }
{
    let outcome = match take(server, clients, come, put, alloc, event) {
        Ok(outcome) => outcome,
        Err(OutOfMemory) => return Err(WorldStop::OutOfMemory),
    };
    if is_over(put) {
        return Err(WorldStop::PoolFull);
    }
    Ok(outcome)
}

/// What a peer holds.
fn report_of(peer: &Peer, alloc: Global) -> Result<Report, ReportNo>
    ensures report { IfOk result (λ r. r ≡ kept_report peer.now) }
    ensures there { result ≢ Err report_no.NoPeer }
    ensures spent { result ≡ Err report_no.Spent → peer.now.spent ≡ true }
{
    match peer.report(alloc) {
        Ok(report) => Ok(report),
        Err(Stop::OutOfMemory) => Err(ReportNo::OutOfMemory),
        Err(Stop::Spent) => Err(ReportNo::Spent),
    }
}

/// What the peer with this number holds, where it is there.
fn report_at(
    server: &Peer,
    clients: &Vec<Client>,
    alloc: Global,
    number: &i32,
) -> Result<Report, ReportNo>
    ensures report { (come put : ℕ) → IfOk result (λ r. option_map kept_report (kept_at (live_parts server.now come put clients.now.items) number.now) ≡ Some r) }
    ensures no_peer { (come put : ℕ) → result ≡ Err report_no.NoPeer ↔ has_peer (live_parts server.now come put clients.now.items) number.now ≡ false }
    ensures spent { (come put : ℕ) → result ≡ Err report_no.Spent → option_map is_spent (kept_at (live_parts server.now come put clients.now.items) number.now) ≡ Some true }
{
    if is_server(number) {
        return report_of(server, alloc);
    }
    match client_place(clients, number) {
        Some(place) => report_of(&clients[place].peer, alloc),
        None => Err(ReportNo::NoPeer),
    }
}

/// The server and its clients, by their numbers, with what waits on their links, how many clients ever connected, and
/// how many bytes were ever put in flight.
///
/// After want of memory, or of room in flight, it is spent, and says so from then on.
#[derive(Drop)]
pub struct World {
    spent: bool,
    server: Peer,
    clients: Vec<Client>,
    come: u32,
    put: u64,
}

impl Model for World {
    ghost use Rattle.gd_variant.specs.contracts.value.Variant as variant;
    ghost use Rattle.std.specs.Coded.{codes};
    ghost use Rattle.std.specs.Prelude.{◌≡◌, false};
    ghost use Rattle.scene_model.specs.Valid.{IsValidScene};
    ghost use Rattle.world_steps.specs.Steps.{Parts};

    ghost Value = { Parts };

    ghost coded = { Prim.hlevel (codes, variant.the_row.coded) };

    ghost view = { λ w. record { spent = w.spent; server = w.server; come = w.come; put = w.put; clients = w.clients.items } };

    ghost invariant = { λ w. w.spent ≡ false → IsValidScene w.server.who.scene };
}

impl World {
    /// The server alone.
    pub fn new(alloc: Global, scene: &Scene) -> Result<World, OutOfMemory>
        requires { IsValidScene scene.now }
        ensures scene { IfOk result (λ w. scene_of w ≡ scene.now) }
        ensures stands { IfOk result (λ w. StandsForScript w []) }
    {
        Ok(World {
            spent: false,
            server: Peer::new(alloc, SERVER, scene)?,
            clients: Vec::new(alloc),
            come: 0,
            put: 0,
        })
    }

    /// Lets an event happen, and answers it.
    ///
    /// Where the world or a peer refuses the event, nothing changes.
    pub fn step(&mut self, alloc: Global, event: WorldEvent) -> Result<WorldOutcome, WorldStop>
        requires built { is_built_event event ≡ true }
        requires sound { has_sound_values event ≡ true }
        // the answer of the definitions, for every script that the world stands for
        ensures answer { (es : List EventOf) → StandsForScript self.old es → IfOk result (λ o. o ≡ world_answer packet_form (scene_of self.old) (world packet_form (scene_of self.old) es) event) }
        // afterwards it stands for that script with this event, where it happened
        ensures stands { (es : List EventOf) → StandsForScript self.old es → IfOk result (λ o. happened o ≡ true → StandsForScript self.new (event ∷ es)) }
        ensures unchanged { IfOk result (λ o. happened o ≡ false → self.new ≡ self.old) }
        // it is full exactly where what is ever put in flight with this event has more bytes than there is room for
        ensures full { (es : List EventOf) → StandsForScript self.old es → result ≡ Err stop.PoolFull → overflows packet_form (scene_of self.old) (world packet_form (scene_of self.old) es) event ≡ true }
        ensures room { (es : List EventOf) → StandsForScript self.old es → IfOk result (λ _. overflows packet_form (scene_of self.old) (world packet_form (scene_of self.old) es) event ≡ false) }
        ensures scene { OnOk result (scene_of self.new ≡ scene_of self.old) }
        ensures was_spent { result ≡ Err stop.Spent ↔ self.old.spent ≡ true }
        ensures spends { OnErr result (self.new.spent ≡ true) }
    {
        if self.spent {
            return Err(WorldStop::Spent);
        }
        names_are_texts(&event);
        match take_within(
            &mut self.server,
            &mut self.clients,
            &mut self.come,
            &mut self.put,
            alloc,
            event,
        ) {
            Ok(outcome) => Ok(outcome),
            Err(stop) => {
                self.spent = true;
                Err(stop)
            }
        }
    }

    /// What a peer holds.
    pub fn report(&self, alloc: Global, peer: i32) -> Result<Report, ReportNo>
        ensures report { (es : List EventOf) → StandsForScript self.now es → IfOk result (λ r. r ≡ reported packet_form (scene_of self.now) (world packet_form (scene_of self.now) es) peer) }
        // once nothing is on the way from another peer, after a frame of it since which nothing changed, the report has each of its on-change values that this peer may see
        ensures values { (es : List EventOf) (a : ℤ) → StandsForScript self.now es → is_joined (world packet_form (scene_of self.now) es) a peer ≡ true → IfOk result (TellsValues (scene_of self.now) (world packet_form (scene_of self.now) es) a peer) }
        ensures no_peer { (es : List EventOf) → StandsForScript self.now es → result ≡ Err report_no.NoPeer ↔ is_in (world packet_form (scene_of self.now) es) peer ≡ false }
        // it is spent exactly where the world is
        ensures was_spent { self.now.spent ≡ true → result ≡ Err report_no.Spent }
        ensures live { (es : List EventOf) → StandsForScript self.now es → result ≢ Err report_no.Spent }
        ensures there { (es : List EventOf) → StandsForScript self.now es → IfOk result (λ _. is_in (world packet_form (scene_of self.now) es) peer ≡ true) }
    {
        if self.spent {
            return Err(ReportNo::Spent);
        }
        report_at(&self.server, &self.clients, alloc, &peer)
    }
}
