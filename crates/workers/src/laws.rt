//! What holds of the answers of sessions, as the contract of a function that does nothing.

ghost use Rattle.workers.specs.Claims.{PlacesRise};

use commitlog::laws::order_law;
use std::alloc::Allocator;

/// The places of a session's answers rise with their numbers, in an orderly log whose calls they are. The log
/// of a core is orderly (`Core::records`), and answers that `gather` takes are its calls.
pub fn places_law<A: Allocator>()
    ensures { PlacesRise A }
{
    order_law();
}
