//! When a message was received.

ghost use Rattle.std.specs.Prelude.{◌≡◌, Some, ◌/◌, ◌<◌, ◌^◌};
ghost use Rattle.pst_ndb.specs.Views.{table_of_node, roots_of};
ghost use Rattle.pst_value_json.specs.pst_pc.View.{node_of_pc};
ghost use Rattle.pst_export.specs.Time.{seconds_of, time_of, unix_seconds as unix};

use pst_msg::Pc;
use pst_value::{PropType, as_u64};

// When a message was received (PidTagMessageDeliveryTime), and the type of times (PtypTime).
const RECEIVED: u16 = 0x0E06;

const TIME: u16 = 0x0040;

// How many seconds lie between 1 January 1601 and 1 January 1970.
const EPOCH: u64 = 11_644_473_600;

// Seconds since 1 January 1970, of eleven octal digits.
const MOST: u64 = 1 << 33;

// Seconds since 1 January 1970, of those since 1 January 1601.
fn unix_seconds(seconds: u64) -> u64
    ensures { result ≡ unix seconds }
{
    if seconds >= EPOCH && seconds - EPOCH < MOST {
        seconds - EPOCH
    } else {
        0
    }
}

/// The time of the files of a message, by its properties: when it was received, in seconds since 1 January 1970; 0 where that is not
/// told, or cannot be told so.
#[tactic(auto, unfolding(crate::specs::Time::time_of))]
pub(crate) fn received(pc: &Pc) -> u64
    ensures { let node = node_of_pc pc.now in result
        ≡ time_of (table_of_node node) (roots_of node) }
{
    match pc.get(RECEIVED) {
        Some(prop) if prop.kind == PropType(TIME) => match as_u64(&prop.value) {
            Some(time) => unix_seconds(time / 10_000_000),
            None => 0,
        },
        _ => 0,
    }
}
