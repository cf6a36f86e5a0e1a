//! The hub and its callers' tokens.
use crate::desk::Desk;
use crate::machine::Machine;
use crate::rule::{ByTurns, View};
use atomic_table::Table;
use std::alloc::Global;
use std::marker::Model;

pub type Token<M> = atomic_table::Seat<
    Option<Desk<M>>,
    View<<M as Machine>::Event, <M as Machine>::Kind>,
>;

/// A machine for many callers. Contracts see which one it is.
#[derive(Drop)]
pub struct Hub<M: Machine> {
    pub(crate) table: Table<Option<Desk<M>>, View<M::Event, M::Kind>, M::Kind, ByTurns, Global>,
}

impl<M: Machine> Model for Hub<M> {
    ghost use Rattle.std.specs.Prelude.{◌≡◌};
    ghost use Rattle.atomic_table.specs.Seated.{TableId, table_id_coded};

    ghost Value = { TableId };

    ghost coded = { table_id_coded };

    ghost view = { λ h. h.table.shared.table_id };

    ghost invariant = { λ h. (h.table.shared.table_id.words ≡ 2) × (h.table.shared.table_id.slots ≡ 1) };
}

/// A caller's token. Contracts see in it the journal that it has seen and its own entries.
#[derive(Drop)]
pub struct Seat<M: Machine> {
    pub(crate) token: Token<M>,
    pub(crate) units: u64,
}

impl<M: Machine> Model for Seat<M> {
    ghost use Rattle.turn_hub.specs.Known.{Known};

    ghost Value = { Known M.Event M.Kind };

    ghost use Rattle.turn_hub.specs.Ready.{known, Ready};

    ghost view = { λ s. known s.token.table_id s.token.me.0 s.units };

    ghost invariant = { λ s. Ready M.words s.token.me s.units };
}
