//! The laws of packets, for every list of bytes.
ghost use Rattle.std.specs.Prelude.{◌≡◌, ◌≤◌, ◌<◌, List, ℕ, Ok, Err, length};
ghost use Rattle.byte_fields.specs.Fields.{IsBytes};
ghost use Rattle.gd_variant.specs.declared.message.Bad.{Bad};
ghost use Rattle.gd_variant.specs.declared.message.Message.{Message};
ghost use Rattle.packet_form.specs.Packets.{Frames, IsBadPacket, IsWritable, read_packet};
ghost use Rattle.packet_form.specs.Written.{written_packet};
ghost use Rattle.packet_form.specs.Held.{held_by_message};

/// What is written is read again.
pub fn round_trip()
    ensures { (m : Message) → IsWritable m → read_packet (written_packet m) ≡ Ok m }
{}

/// What is written is a packet of the message.
pub fn written_frames()
    ensures { (m : Message) → IsWritable m → Frames m (written_packet m) }
{}

/// Bytes are a message's packet exactly where they read as it.
pub fn read_frames()
    ensures found { (m : Message) (b : List ℕ) → IsBytes b → read_packet b ≡ Ok m → Frames m b }
    ensures only { (m : Message) (b : List ℕ) → Frames m b → read_packet b ≡ Ok m }
{}

/// Something is wrong with bytes exactly where reading answers it.
pub fn read_faults()
    ensures found { (b : List ℕ) (bad : Bad) → IsBytes b → read_packet b ≡ Err bad → IsBadPacket b bad }
    ensures only { (b : List ℕ) (bad : Bad) → IsBadPacket b bad → read_packet b ≡ Err bad }
{}

/// A message holds no more than its packet has bytes.
pub fn bounded()
    ensures { (m : Message) (b : List ℕ) → Frames m b → held_by_message m ≤ length b }
{}
