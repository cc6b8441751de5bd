//! A block that has arrived whole, with the two bytes after it, becomes data.
ghost use Rattle.std.specs.Prelude.{◌≡◌, ◌+◌, ◌<◌, ◌≤◌, ◌++◌, [], drop, length, take, vec_len, IfOk, IsOkUnless, OnOk, OnErr};
ghost use Rattle.mc_model.specs.declared.item.TheConstants.{DATA_BYTES};
ghost use Rattle.mc_read.specs.Text.{ends_well};

use bytes::Bytes;
use mc_model::{Data, Fault};
use std::alloc::Global;
use std::mem;

/// Returns whether these bytes, which follow a block, are a line end.
fn is_line_end(after: &[u8]) -> bool
    ensures { result ≡ ends_well after.now }
{
    after == b"\r\n".as_slice()
}

/// Copies a block out of the bytes after its line, and returns with it whether the two bytes after
/// it are a line end. Returns `Memory` if an allocation fails.
#[inline(always)]
pub(crate) fn copy_block(alloc: Global, size: usize, body: &[u8]) -> Result<(Data, bool), Fault>
    requires small { size ≤ DATA_BYTES }
    requires whole { length body.now ≡ size + 2 }
    ensures block { IfOk result (λ copied. copied.0 ≡ take size body.now) }
    ensures ends_well { IfOk result (λ copied. copied.1 ≡ ends_well (drop size body.now)) }
    ensures memory { IsOkUnless result Fault.Memory }
{
    let ends_well = is_line_end(&body[size..]);
    match Data::shareable(Vec::from_slice(alloc, &body[..size])?)? {
        Some(block) => Ok((block, ends_well)),
        None => unreachable!(),
    }
}

/// Returns the `size` bytes of a piece from `start` on as a block that shares its memory, with
/// whether the two bytes behind them are a line end. Returns `Memory` if an allocation fails.
pub(crate) fn share_block(piece: &Bytes, start: usize, size: usize) -> Result<(Data, bool), Fault>
    requires small { size ≤ DATA_BYTES }
    requires whole { start + (size + 2) ≤ length piece.now }
    ensures block { IfOk result
        (λ taken. taken.0 ≡ take size (take (size + 2) (drop start piece.now))) }
    ensures ends_well { IfOk result
        (λ taken. taken.1 ≡ ends_well (drop size (take (size + 2) (drop start piece.now)))) }
    ensures memory { IsOkUnless result Fault.Memory }
{
    let bytes = piece.as_slice();
    let body = &bytes[start..start + (size + 2)];
    let ends_well = is_line_end(&body[size..]);
    match Data::from_bytes(piece.slice(start..start + size)?) {
        Some(block) => Ok((block, ends_well)),
        None => unreachable!(),
    }
}

/// Turns the memory of a block that has arrived whole into data, without copying it, and returns
/// with it whether the two bytes after it are a line end. Returns `Memory` if an allocation fails;
/// the bytes stay where they are then.
pub(crate) fn whole_block(body: &mut Vec<u8>, size: usize) -> Result<(Data, bool), Fault>
    requires small { size ≤ DATA_BYTES }
    requires whole { vec_len body.old ≡ size + 2 }
    ensures block { IfOk result (λ taken. taken.0 ≡ take size body.old.items) }
    ensures ends_well { IfOk result (λ taken. taken.1 ≡ ends_well (drop size body.old.items)) }
    ensures memory { IsOkUnless result Fault.Memory }
    ensures none { OnOk result (body.new.items ≡ []) }
    ensures unchanged { OnErr result (body.new.items ≡ body.old.items) }
{
    let ends_well = is_line_end(&body[size..]);
    let alloc = *body.allocator();
    match Bytes::from_vec(mem::replace(body, Vec::new(alloc))) {
        Ok(whole) => {
            let mut block = whole;
            block.truncate(size);
            match Data::from_bytes(block) {
                Some(block) => Ok((block, ends_well)),
                None => unreachable!(),
            }
        }
        Err(failed) => {
            *body = failed.value;
            Err(Fault::Memory)
        }
    }
}
