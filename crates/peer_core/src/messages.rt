//! What a message is to a peer.
ghost use Rattle.std.specs.Prelude.{◌≡◌, option_map};
ghost use Rattle.peer_steps.specs.Steps.{row_read};
ghost use Rattle.peer_core.specs.Parts.{news_of};

use gd_variant::{DeltaList, Message, Plain};
use scene_model::SpawnMsg;

/// What a message says of a row of its sender, or of values of its sender's synchronizers.
#[derive(Drop)]
pub enum RowNews {
    /// The row is shown.
    Appears(SpawnMsg),
    /// The row with this number is hidden.
    Disappears(u32),
    /// On-change properties have these values.
    Changes(DeltaList),
}

/// The news of a row or of values that a message is.
pub fn news_in(message: Message) -> Option<RowNews>
    ensures { option_map news_of result ≡ row_read message }
{
    match message {
        Message::Plain(
            Plain::Spawn {
                scene,
                spawner,
                net,
                syncs,
                name,
                arg,
                values,
            },
        ) => Some(RowNews::Appears(SpawnMsg {
            scene,
            spawner,
            net,
            syncs,
            name,
            arg,
            values,
        })),
        Message::Plain(Plain::Despawn { net }) => Some(RowNews::Disappears(net)),
        Message::Plain(Plain::Delta { entries }) => Some(RowNews::Changes(entries)),
        _ => None,
    }
}
