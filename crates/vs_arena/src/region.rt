//! A block of memory from an allocator, as places side by side. Nothing else in the crate has a raw pointer.
ghost use Rattle.std.specs.Prelude.{◌≡◌, ℕ, ◌<◌, List, Option, Some, None, length, replicate, get_or, slice_set, IfOk};
ghost use Rattle.std.specs.Borrow.{sem};
ghost use Rattle.std.specs.Vec.Ownership.{FitsInBlock};
ghost use base.Fml.{ftrue};
ghost use denote.RawPtr.{Ptr};
ghost use Rattle.vs_arena.specs.inside.Region.{IsFilled};
ghost use Rattle.vs_arena.specs.inside.RegionMemory.{region_owns, region_lends, lease_owns};

use std::alloc::{AllocError, Allocator};
use std::marker::{Model, PhantomData, Send, Sync};
use std::mem::{align_of, size_of};

/// Owner of the places, each empty or with a value, from `first` on.
pub(crate) struct Region<T> {
    first: *mut T,
    ghost places: { List (Option T) },
}

impl<T> Model for Region<T> {
    ghost also_owns = { λ r. region_owns T.row r.first r.places };

    ghost also_shares = { λ r _ κ. region_lends T.row r.first r.places κ };
}

unsafe impl<T: Send> Send for Region<T> {}

unsafe impl<T: Sync> Sync for Region<T> {}

/// The right to give the block of `len` places from `first` on back to `alloc`. It takes no space.
pub(crate) struct Lease<T, A: Allocator> {
    mark: PhantomData<*const (T, A)>,
    ghost first: { Ptr },
    ghost len: { ℕ },
    ghost alloc: { A },
}

impl<T, A: Allocator> Model for Lease<T, A> {
    ghost also_owns = { λ l. lease_owns T.row (A.dealloc_token l.alloc) l.first l.len };

    ghost also_shares = { λ _ _ _. ftrue };
}

unsafe impl<T, A: Allocator + Send> Send for Lease<T, A> {}

// A `&` to it holds nothing.
unsafe impl<T, A: Allocator> Sync for Lease<T, A> {}

/// `len` empty places, and the right to give them back.
pub(crate) fn allocate<T, A: Allocator>(
    alloc: &A,
    len: usize,
) -> Result<(Region<T>, Lease<T, A>), AllocError>
    requires { FitsInBlock T.row len }
    ensures { IfOk result
        (λ r. (r.0.places ≡ replicate len None) × (r.1.first ≡ r.0.first) × (r.1.len ≡ len)
        × (r.1.alloc ≡ alloc.now)) }
{
    // The block is asked for by the size and the alignment of `len` values.
    // It owns all its bytes, and the lease the right to free it: nothing else has the pointer.
    match alloc.allocate(len * size_of::<T>(), align_of::<T>()) {
        Ok(block) => {
            let first = block as *mut T;
            Ok((Region { first }, Lease { mark: PhantomData }))
        }
        Err(error) => Err(error),
    }
}

/// Gives the block back. The values in it are forgotten.
pub(crate) fn deallocate<T, A: Allocator>(
    alloc: &A,
    region: Region<T>,
    len: usize,
    lease: Lease<T, A>,
)
    requires { (length region.places ≡ len) × (lease.first ≡ region.first) × (lease.len ≡ len)
        × (lease.alloc ≡ alloc.now) }
{
    let Region { first } = region;
    let Lease { mark: _ } = lease;
    // The lease says that `alloc` gave this block for `len` values.
    // Both owners end here, so that nobody reads it or frees it again.
    unsafe {
        alloc.deallocate(first as *mut u8, len * size_of::<T>(), align_of::<T>());
    }
}

impl<T> Region<T> {
    ghost use Rattle.vs_arena.specs.inside.RegionLends.{lends_place};

    /// Fills an empty place.
    pub(crate) fn write(&mut self, index: usize, value: T)
        requires { (index < length self.old.places) × (get_or self.old.places index None ≡ None) }
        ensures { (self.new.first ≡ self.old.first)
            × (self.new.places ≡ slice_set self.old.places index (Some value)) }
    {
        // The place is below the number of places, so that it lies within the block.
        // The `&mut` says that nobody else uses the block meanwhile.
        unsafe { self.first.add(index).write(value) }
    }

    pub(crate) fn get(&self, index: usize) -> &T
        requires { IsFilled self.now.places index }
        ensures { get_or self.now.places index None ≡ Some result.now }
    {
        // The place has a value, so that it lies within the block and was written.
        // Nobody writes it while the `&` lasts, which is no longer than that to the region.
        unsafe { &*self.first.add(index) }
    }

    pub(crate) fn get_mut(&mut self, index: usize) -> &mut T
        requires { IsFilled self.old.places index }
        ensures* writes_back { sem 𝓛 (lends_place T.row self.entry index result) }
        ensures value { get_or self.old.places index None ≡ Some result.now }
    {
        // The place has a value, so that it lies within the block and was written.
        // Nobody else uses the block while the `&mut` lasts, which is no longer than that to the region.
        unsafe { &mut *self.first.add(index) }
    }
}
