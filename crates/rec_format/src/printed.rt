//! What a recording prints, watches and queries among it.
use room_model::{IdList, OutLine};
use rooms_val::Val;

/// A printed line.
#[derive(Drop)]
pub enum PrintedLine {
    /// A line of the world.
    World(OutLine),
    /// The ids that a client's query found, in their order.
    Ids { client: u64, ids: IdList },
    /// What a watch of a client tells. The watches of a client are numbered from 0 as they are
    /// made.
    Told { client: u64, told: Val, watch: u32 },
}
