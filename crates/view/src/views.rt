//! A view is opened.

ghost use Rattle.std.specs.Prelude.{◌≡◌, [], IfOk, Some, codes};
ghost use Rattle.view.specs.Views.{name_of, published, pending};

use crate::histories::{Naming, Opened};
use crate::limits::LOOKERS;
use crate::lookers::{Looker, Seen};
use crate::publishers::Publisher;
use crate::tables::Shown;
use left_right::WriteHandle;
use std::alloc::{AllocError, Allocator};
use std::error::Error;
use std::fmt;
use std::sync::Wait;

/// No memory was found for a view.
#[derive(Clone, Copy, Debug, PartialEq, Eq)]
pub struct NoView;

impl fmt::Display for NoView {
    ghost output = { λ _. Some (codes "no view") };

    fn fmt<W: fmt::Write>(&self, f: &mut fmt::Formatter<W>) -> fmt::Result {
        f.write_str("no view")
    }
}

impl Error for NoView {}

impl From<AllocError> for NoView {
    fn from(_refused: AllocError) -> Self {
        NoView
    }
}

/// A view of no image: its publisher, a looker, and that nothing was seen. It has places for 64 lookers.
/// The publisher keeps `rt`, a `&R` or the handle itself, since it waits for lookers that read the table
/// which it changes.
pub fn open_view<J: Naming, R: Wait + Drop, A: Allocator + Copy>(
    alloc: A,
    rt: R,
    opened: Opened<A>,
) -> Result<(Publisher<J, R, A>, Looker<J, A>, Seen<J, A>), NoView>
    requires { name_of opened ≡ J.book }
    ensures published { IfOk result (λ view. published view.0 ≡ []) }
    ensures pending { IfOk result (λ view. pending view.0 ≡ []) }
    ensures seen { IfOk result (λ view. view.2 ≡ []) }
{
    let (history, images) = opened.named::<J>();
    let first = Shown::new(alloc, images.again());
    let second = Shown::new(alloc, images.again());
    let seen = Seen::new(images.again());
    let writer = WriteHandle::new(alloc, rt, first, second, LOOKERS)?;
    let looker = Looker::new(writer.handle()?);
    Ok((Publisher::new(writer, alloc, history, images), looker, seen))
}
