//! What waits for each peer.
ghost use Rattle.std.specs.Prelude.{◌≡◌, ◌++◌, ◌∷◌, [], ◌<◌, ◌≤◌, ◌-◌, ◌^◌, ℤ, List, true, false, filter, take, length, min, slice_get, slice_set, remove, IfSome, IfNone, Some, if◌then◌else◌};
ghost use Rattle.std.specs.Ordering.{int_eq};
ghost use Rattle.turn_hub.specs.History.{is_for, size_of};
ghost use Rattle.turn_hub.specs.Boxes.{Apart, has_box, waiting};
ghost use Rattle.turn_hub.specs.declared.outboxes.Outbox.{Outbox as OutboxOf};

use crate::machine::Machine;
use sqlite_items::Items;
use std::alloc::Global;
use std::marker::Model;

/// The packets that wait on one link.
#[derive(Drop)]
pub struct Outbox<P> {
    pub link: i32,
    pub packets: Items<P>,
}

/// An outbox for each link on which packets wait.
#[derive(Drop)]
pub struct Outboxes<M: Machine> {
    boxes: Vec<Outbox<M::Packet>>,
}

impl<M: Machine> Model for Outboxes<M> {
    ghost use Rattle.std.specs.Prelude.{List};
    ghost use Rattle.turn_hub.specs.declared.outboxes.Outbox.{Outbox};
    ghost use Rattle.turn_hub.specs.Boxes.{Apart};

    ghost Value = { List (Outbox M.Packet) };

    ghost view = { λ o. o.boxes.items };

    ghost invariant = { λ o. Apart o.boxes.items };
}

/// The place of the outbox of a link.
fn place_of<P>(boxes: &[Outbox<P>], link: &i32) -> Option<usize>
    ensures place { IfSome result (λ i. (b : OutboxOf P) × (slice_get boxes.now i ≡ Some b) × (b.link ≡ link.now)) }
    ensures none { IfNone result (has_box link.now boxes.now ≡ false) }
{
    for i in 0..boxes.len() {
        if boxes[i].link == *link {
            return Some(i);
        }
    }
    None
}

/// False where memory ran out, and then nothing was put.
fn put_at<P: Drop>(boxes: &mut Vec<Outbox<P>>, place: usize, packet: P) -> bool
    requires { place < length boxes.old.items }
    ensures put { result ≡ true → (b : OutboxOf P) → slice_get boxes.old.items place ≡ Some b → boxes.new.items ≡ slice_set boxes.old.items place (record b { packets = b.packets ++ packet ∷ [] }) }
    ensures none { result ≡ false → boxes.new.items ≡ boxes.old.items }
{
    boxes[place].packets.push(packet).is_ok()
}

/// False where memory ran out, and then nothing was put.
fn put_new<P: Drop>(boxes: &mut Vec<Outbox<P>>, alloc: Global, link: &i32, packet: P) -> bool
    ensures put { result ≡ true → boxes.new.items ≡ boxes.old.items ++ record { link = link.now; packets = packet ∷ [] } ∷ [] }
    ensures none { result ≡ false → boxes.new.items ≡ boxes.old.items }
{
    let mut packets = Items::new(alloc);
    if packets.push(packet).is_err() {
        return false;
    }
    boxes
        .push(Outbox {
            link: *link,
            packets,
        })
        .is_ok()
}

/// Puts a packet behind those that wait on a link. False where memory ran out, and then nothing was put.
fn put_on<P: Drop>(boxes: &mut Vec<Outbox<P>>, alloc: Global, link: &i32, packet: P) -> bool
    requires apart { Apart boxes.old.items }
    ensures apart { Apart boxes.new.items }
    ensures put { result ≡ true → (q : ℤ) → waiting boxes.new.items q ≡ waiting boxes.old.items q ++ (if int_eq link.now q then packet ∷ [] else []) }
    ensures none { result ≡ false → boxes.new.items ≡ boxes.old.items }
{
    match place_of(boxes.as_slice(), link) {
        Some(place) => put_at(boxes, place, packet),
        None => put_new(boxes, alloc, link, packet),
    }
}

/// Puts a copy of a packet behind those that wait on its link. False where memory ran out, and then nothing was put.
fn put<M: Machine>(boxes: &mut Vec<Outbox<M::Packet>>, alloc: Global, packet: &M::Packet) -> bool
    requires apart { Apart boxes.old.items }
    ensures apart { Apart boxes.new.items }
    ensures put { result ≡ true → (q : ℤ) → waiting boxes.new.items q ≡ waiting boxes.old.items q ++ filter (is_for M.words q) (packet.now ∷ []) }
    ensures none { result ≡ false → boxes.new.items ≡ boxes.old.items }
{
    let Ok(copy) = M::copy_packet(alloc, packet) else {
        return false;
    };
    put_on(boxes, alloc, &M::link(packet), copy)
}

/// Puts copies of packets until memory runs out, and answers how many were put.
fn put_all<M: Machine>(
    boxes: &mut Vec<Outbox<M::Packet>>,
    alloc: Global,
    packets: &[M::Packet],
) -> usize
    requires apart { Apart boxes.old.items }
    ensures apart { Apart boxes.new.items }
    ensures within { result ≤ length packets.now }
    ensures put { (q : ℤ) → waiting boxes.new.items q ≡ waiting boxes.old.items q ++ filter (is_for M.words q) (take result packets.now) }
{
    let mut count = 0;
    while count < packets.len() {
        if !put::<M>(boxes, alloc, &packets[count]) {
            return count;
        }
        count += 1;
    }
    count
}

/// Takes the newest packet of a link away.
fn take_last<P: Drop>(boxes: &mut Vec<Outbox<P>>, link: &i32)
    requires apart { Apart boxes.old.items }
    ensures apart { Apart boxes.new.items }
    ensures others { (q : ℤ) → int_eq link.now q ≡ false → waiting boxes.new.items q ≡ waiting boxes.old.items q }
    ensures last { (ps : List P) (p : P) → waiting boxes.old.items link.now ≡ ps ++ p ∷ [] → waiting boxes.new.items link.now ≡ ps }
{
    if let Some(place) = place_of(boxes.as_slice(), link) {
        let _ = boxes[place].packets.pop();
    }
}

/// Takes the newest packets away, which are the first `count` of these.
fn take_back<M: Machine>(boxes: &mut Vec<Outbox<M::Packet>>, packets: &[M::Packet], count: usize)
    requires apart { Apart boxes.old.items }
    requires within { count ≤ length packets.now }
    ensures apart { Apart boxes.new.items }
    ensures back { (f : ℤ → List M.Packet) → ((q : ℤ) → waiting boxes.old.items q ≡ f q ++ filter (is_for M.words q) (take count packets.now)) → (q : ℤ) → waiting boxes.new.items q ≡ f q }
{
    let mut left = count;
    while left > 0 {
        left -= 1;
        take_last(boxes, &M::link(&packets[left]));
    }
}

/// Takes the outbox of a link away.
fn take_box<P: Drop>(boxes: &mut Vec<Outbox<P>>, alloc: Global, link: &i32) -> Items<P>
    requires apart { Apart boxes.old.items }
    ensures apart { Apart boxes.new.items }
    ensures out { result ≡ waiting boxes.old.items link.now }
    ensures none { waiting boxes.new.items link.now ≡ [] }
    ensures others { (q : ℤ) → int_eq link.now q ≡ false → waiting boxes.new.items q ≡ waiting boxes.old.items q }
{
    let Some(place) = place_of(boxes.as_slice(), link) else {
        return Items::new(alloc);
    };
    let Outbox { link: _, packets } = boxes.remove(place);
    packets
}

fn size_within<M: Machine>(packets: &[M::Packet]) -> u64
    ensures { result ≡ min (size_of M.words packets.now) (2 ^ 64 - 1) }
{
    let mut sum = 0u64;
    for packet in packets {
        sum = sum.saturating_add(M::size(packet));
    }
    sum
}

impl<M: Machine> Outboxes<M> {
    pub fn new(alloc: Global) -> Outboxes<M>
        ensures { result ≡ [] }
    {
        Outboxes {
            boxes: Vec::new(alloc),
        }
    }

    /// Puts copies of packets behind those that wait. False where memory ran out, and then nothing was put.
    pub fn keep(&mut self, alloc: Global, packets: &[M::Packet]) -> bool
        ensures kept { result ≡ true → (q : ℤ) → waiting self.new q ≡ waiting self.old q ++ filter (is_for M.words q) packets.now }
        ensures none { result ≡ false → (q : ℤ) → waiting self.new q ≡ waiting self.old q }
    {
        let Outboxes { boxes } = self;
        let count = put_all::<M>(boxes, alloc, packets);
        if count == packets.len() {
            return true;
        }
        take_back::<M>(boxes, packets, count);
        false
    }

    /// Takes all that waits on a link.
    pub fn take(&mut self, alloc: Global, link: &i32) -> Items<M::Packet>
        ensures out { result ≡ waiting self.old link.now }
        ensures none { waiting self.new link.now ≡ [] }
        ensures others { (q : ℤ) → int_eq link.now q ≡ false → waiting self.new q ≡ waiting self.old q }
    {
        let Outboxes { boxes } = self;
        take_box(boxes, alloc, link)
    }

    /// How many packets wait on a link.
    pub fn len(&self, link: &i32) -> usize
        ensures { result ≡ length (waiting self.now link.now) }
    {
        match place_of(self.boxes.as_slice(), link) {
            Some(place) => self.boxes[place].packets.len(),
            None => 0,
        }
    }

    /// The bytes of all that waits on a link, or the greatest number where they are more.
    pub fn size(&self, link: &i32) -> u64
        ensures { result ≡ min (size_of M.words (waiting self.now link.now)) (2 ^ 64 - 1) }
    {
        match place_of(self.boxes.as_slice(), link) {
            Some(place) => size_within::<M>(self.boxes[place].packets.as_slice()),
            None => 0,
        }
    }
}
