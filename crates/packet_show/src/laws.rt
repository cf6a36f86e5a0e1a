//! What the definitions of a run come to.
ghost use Rattle.std.specs.Prelude.{◌≡◌, ◌≤◌, ◌<◌, ◌%◌, ◌++◌, ◌↔◌, List, [], ◌∷◌, ℕ, Some, None, IsTrue, is_ok, length, codes};
ghost use Rattle.std.specs.List.{AllPass};
ghost use Rattle.hex.specs.Hex.{is_hex_digit};
ghost use Rattle.program_edge.specs.declared.status.LineWhy.TheVariants as why;
ghost use Rattle.program_edge.specs.declared.status.Status.TheVariants as status;
ghost use Rattle.line_runs.specs.Output.{behind, read_in, stops};
ghost use Rattle.packet_show.specs.Shown.{packet_line, show_command, shown};

/// Which inputs end a run without a line that stops it, and which lines are packets in hexadecimal.
pub fn ends_without_a_line()
    ensures done { (longest limit : ℕ) (input : List ℕ) → (read_in show_command longest limit input).end ≡ status.Done → length input ≤ limit }
    ensures input_long { (longest limit : ℕ) (input : List ℕ) → (read_in show_command longest limit input).end ≡ status.InputLong → limit < length input }
    ensures hex { (line : List ℕ) → IsTrue (is_ok (shown line)) ↔ ((length line % 2 ≡ 0) × AllPass is_hex_digit line) }
{}

/// Small inputs, with lines of at most 4 bytes.
pub fn small_inputs()
    ensures empty { read_in show_command 4 10 [] ≡ stops status.Done }
    ensures empty_line { read_in show_command 4 10 (10 ∷ []) ≡ behind (packet_line [] ∷ []) (stops status.Done) }
    ensures not_hex { read_in show_command 4 10 (codes "05" ++ 10 ∷ codes "0g") ≡ behind (packet_line (5 ∷ []) ∷ []) (stops (status.BadLine 2 why.Hex)) }
    ensures odd { read_in show_command 4 10 (codes "050" ++ 10 ∷ codes "05") ≡ stops (status.BadLine 1 why.Hex) }
    ensures longest { read_in show_command 4 10 (codes "Ff05") ≡ behind (packet_line (255 ∷ 5 ∷ []) ∷ []) (stops status.Done) }
    ensures too_long { read_in show_command 4 10 (codes "050g5") ≡ stops (status.LineLong 1) }
    ensures whole { read_in show_command 4 10 (codes "0505" ++ 10 ∷ codes "0606" ++ 10 ∷ []) ≡ behind (packet_line (5 ∷ 5 ∷ []) ∷ packet_line (6 ∷ 6 ∷ []) ∷ []) (stops status.Done) }
    ensures longer { read_in show_command 4 10 (codes "0505" ++ 10 ∷ codes "0606" ++ 10 ∷ 10 ∷ []) ≡ behind (packet_line (5 ∷ 5 ∷ []) ∷ packet_line (6 ∷ 6 ∷ []) ∷ []) (stops status.InputLong) }
    ensures feed_behind { read_in show_command 4 9 (codes "0505" ++ 10 ∷ codes "0606" ++ 10 ∷ []) ≡ behind (packet_line (5 ∷ 5 ∷ []) ∷ []) (stops status.InputLong) }
    ensures ends_there { read_in show_command 4 9 (codes "0505" ++ 10 ∷ codes "0606") ≡ behind (packet_line (5 ∷ 5 ∷ []) ∷ packet_line (6 ∷ 6 ∷ []) ∷ []) (stops status.Done) }
    ensures not_judged { read_in show_command 4 9 (codes "0505" ++ 10 ∷ codes "0g060") ≡ behind (packet_line (5 ∷ 5 ∷ []) ∷ []) (stops status.InputLong) }
    ensures long_judged { read_in show_command 4 10 (codes "0505" ++ 10 ∷ codes "060606") ≡ behind (packet_line (5 ∷ 5 ∷ []) ∷ []) (stops (status.LineLong 2)) }
{}
