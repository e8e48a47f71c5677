//! Images are published as they are taken.

use crate::checkpointing::Listener;
use image::Image;
use left_right::Absorb;
use procedure::NoMemory;
use std::alloc::Allocator;
use std::sync::Wait;
use view::tables::{Appended, Shown};
use view::{Naming, Publisher};

/// A publisher, and whether nothing was refused so far.
pub(crate) struct Publishing<J: Naming, Q: Wait + Drop, A: Allocator + Copy>
where
    Shown<J, A>: Absorb<Appended<J, A>>,
{
    pub(crate) publisher: Publisher<J, Q, A>,
    pub(crate) goes_on: bool,
}

impl<J: Naming, Q: Wait + Drop, A: Allocator + Copy> Listener<Image<A>> for Publishing<J, Q, A> {
    fn listens(&self) -> bool {
        self.goes_on
    }

    fn hear(&mut self, copy: Result<Image<A>, NoMemory>) {
        let published = match copy {
            Ok(image) => self.publisher.append(image).is_ok() && self.publisher.publish().is_ok(),
            Err(NoMemory) => false,
        };
        self.goes_on = published;
    }
}
