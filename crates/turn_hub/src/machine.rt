//! What a hub runs.
ghost use Rattle.std.specs.Prelude.{◌≡◌, ◌∷◌, ◌-◌, ◌^◌, List, Bool, true, false, IfOk, OnOk, OnErr, min};
ghost use Rattle.turn_hub.specs.Words.{Words};

use gd_variant::OutOfMemory;
use std::alloc::Global;

/// A machine that takes one event after the other, and sends packets over links.
pub trait Machine: Drop {
    /// What of a machine no event changes.
    type Kind: Drop;

    type Event: Drop;

    type Outcome: Drop;

    type Packet: Drop;

    /// The definitions of its answers, and what a hub has to know of events and packets.
    ghost words: { Words Self.Kind Self.Event Self.Outcome Self.Packet };

    /// Some kind.
    ghost blank: { Self.Kind };

    ghost kind_of: { Self → Self.Kind };

    /// Whether an earlier step ran out of memory.
    ghost spent: { Self → Bool };

    /// Which events, the newest first, it stands for.
    ghost stands: { Self → List Self.Event → Type 0 };

    /// Which events may be taken.
    ghost may: { Self.Event → Type 0 };

    /// A copy of its kind.
    fn kind(&self, alloc: Global) -> Result<Self::Kind, OutOfMemory>
        ensures { IfOk result (λ k. k ≡ kind_of self.now) };

    fn is_spent(&self) -> bool
        ensures { result ≡ spent self.now };

    /// It is spent from now on.
    fn give_up(&mut self)
        ensures { spent self.new ≡ true };

    /// Takes an event; where memory runs out it is spent.
    fn step(&mut self, alloc: Global, event: Self::Event) -> Result<Self::Outcome, OutOfMemory>
        requires live { spent self.old ≡ false }
        requires may { may event }
        ensures answer { (es : List Self.Event) → stands self.old es → IfOk result (λ o. o ≡ words.answer (kind_of self.old) es event) }
        ensures stands { (es : List Self.Event) → stands self.old es → OnOk result (stands self.new (event ∷ es)) }
        ensures spends { OnErr result (spent self.new ≡ true) }
        ensures lives { OnOk result (spent self.new ≡ false) }
        ensures kind { OnOk result (kind_of self.new ≡ kind_of self.old) };

    fn copy_event(alloc: Global, event: &Self::Event) -> Result<Self::Event, OutOfMemory>
        ensures { IfOk result (λ e. e ≡ event.now) };

    /// What an event counts in the journal, or the greatest number where that is more.
    fn weigh(event: &Self::Event) -> u64
        ensures { result ≡ min (words.weight event.now) (2 ^ 64 - 1) };

    /// Whether an event came over a link.
    fn is_received(event: &Self::Event) -> bool
        ensures { result ≡ words.is_received event.now };

    fn packets(outcome: &Self::Outcome) -> &[Self::Packet]
        ensures { result.now ≡ words.sends outcome.now };

    fn copy_packet(alloc: Global, packet: &Self::Packet) -> Result<Self::Packet, OutOfMemory>
        ensures { IfOk result (λ p. p ≡ packet.now) };

    /// The link on which a packet goes.
    fn link(packet: &Self::Packet) -> i32
        ensures { result ≡ words.link packet.now };

    /// The number of a packet's bytes.
    fn size(packet: &Self::Packet) -> u64
        ensures { result ≡ words.size packet.now };

    ghost live: { (m : Self) (es : List Self.Event) → stands m es → spent m ≡ false };
}
