//! The verdict of an exchange.

ghost use Rattle.std.specs.Prelude.{◌≡◌};
ghost use Rattle.superstep_machine.specs.Parts.{UniformPart};
ghost use Rattle.superstep_machine.specs.Run as machine;
ghost use Rattle.superstep_machine.specs.Purposes.{purpose_is};
ghost use Rattle.worker_exchange.specs.Shown.{way_is};

use crate::way::Way;
use superstep_machine::{Key, Purpose};

// A key whose statement is over.
fn due(key: Option<Key>, count: u32) -> Option<Key>
    ensures { result ≡ machine.due key count }
{
    match key {
        Some(key) => { if key.count < count { Some(key) } else { None } }
        None => None,
    }
}

// A key ends a run that would go on.
fn unless(key: Option<Key>, way: Way) -> Way
    ensures { way_is result ≡ machine.unless key (way_is way) }
{
    match key {
        None => way,
        Some(_) => Way::Past { key, ended: false },
    }
}

// What closes is over.
fn closed_by(key: Option<Key>, way: Way) -> Way
    ensures { way_is result ≡ machine.closed_by key (way_is way) }
{
    match way {
        Way::Ending { ended } => Way::Past { key, ended },
        _ => way,
    }
}

/// How it stands with a run behind an exchange: a key ends it whose statement is over, at a send only where no put is held; and a close
/// ends it by any key, or as it was to end. `held` and `count` are those before the exchange.
pub fn decide(purpose: Purpose, held: bool, count: u32, key: Option<Key>, way: Way) -> Way
    ensures { (u : UniformPart) → machine.is_held u.put ≡ held → u.count ≡ count →
        way_is result ≡ machine.decided (purpose_is purpose) u key (way_is way) }
{
    match purpose {
        Purpose::Send => {
            if held {
                way
            } else {
                unless(due(key, count), way)
            }
        }
        Purpose::Reply => unless(due(key, count), way),
        Purpose::Vote { destination: _ } => unless(due(key, count), way),
        Purpose::Close => closed_by(key, way),
    }
}
