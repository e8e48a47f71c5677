//! Copies of what is handed on.

ghost use Rattle.std.specs.Prelude.{◌≡◌, IfOk};

use image::Image;
use procedure::{NoMemory, Sequence, Value};
use std::alloc::Allocator;

/// An image like this one.
pub(crate) fn copy_of_image<A: Allocator + Clone>(
    alloc: A,
    image: &Image<A>,
) -> Result<Image<A>, NoMemory>
    ensures { IfOk result (λ i. i ≡ image.now) }
{
    let entries = image.entries().to_vec(alloc)?;
    match Image::new(
        image.kind(),
        image.number(),
        image.base(),
        image.place(),
        entries,
    ) {
        Some(copy) => Ok(copy),
        None => unreachable!(),
    }
}

/// The same arguments.
pub(crate) fn copy_of_args<A: Allocator + Clone>(
    alloc: &A,
    args: &[Value<A>],
) -> Result<Sequence<Value<A>, A>, NoMemory>
    ensures { IfOk result (λ v. v ≡ args.now) }
{
    Ok(Sequence::new(args.to_vec(alloc.clone()?)?))
}
