//! Data in fragments, with ample memory: joined, given and kept.
ghost use Rattle.std.specs.Io.{StartsWith};
ghost use Rattle.std.specs.Prelude.{◌≡◌, ◌++◌, OnOk};

use mc_model::{Data, Fault, Fragments, Reply, Sink, Value, ValueList};
use shared_tests::values::key_of;
use std::alloc::{AllocError, Global};

/// What a sink has taken, and in how many blocks.
#[derive(Drop)]
struct Taken {
    bytes: Vec<u8>,
    blocks: Vec<usize>,
}

impl Sink for Taken {
    ghost taken = { λ taken. taken.bytes.items };

    fn take_block(&mut self, block: &Data) -> Result<(), AllocError> {
        self.blocks.push(block.as_bytes().len())?;
        self.bytes.extend_from_slice(block.as_bytes())
    }

    fn take_bytes(&mut self, bytes: &[u8]) -> Result<(), AllocError> {
        self.bytes.extend_from_slice(bytes)
    }
}

fn block_of(alloc: Global, text: &str) -> Result<Data, Fault> {
    Data::shareable(Vec::from_slice(alloc, text.as_bytes())?)?.ok_or(Fault::BadEvent)
}

/// Returns the data of two blocks, one after the other.
fn two<'a>(alloc: Global, front: &'a Data, back: &'a Data) -> Result<Fragments<'a>, Fault> {
    let mut joined = Fragments::new(front);
    if joined.len() + back.as_bytes().len() <= 100 {
        joined.append(alloc, back)?;
    }
    Ok(joined)
}

/// Appends a block if the data stay below 100 bytes.
fn append<'a>(alloc: Global, joined: &mut Fragments<'a>, block: &'a Data) -> Result<(), Fault> {
    if joined.len() + block.as_bytes().len() <= 100 {
        joined.append(alloc, block)?;
    }
    Ok(())
}

/// Prepends a block if the data stay below 100 bytes.
fn prepend<'a>(alloc: Global, joined: &mut Fragments<'a>, block: &'a Data) -> Result<(), Fault> {
    if joined.len() + block.as_bytes().len() <= 100 {
        joined.prepend(alloc, block)?;
    }
    Ok(())
}

/// Returns whether the data are those of this block.
fn are_data(alloc: Global, joined: &Fragments<'_>, want: &Data) -> Result<bool, Fault> {
    Ok(joined.to_data(alloc)? == *want)
}

/// Returns whether the data have this length, and are equal to those that share their blocks.
fn are_shared(alloc: Global, joined: &Fragments<'_>, length: usize) -> Result<bool, Fault> {
    Ok(joined.shared(alloc)? == *joined && joined.len() == length)
}

/// Returns whether three blocks are joined, as fragments and as one block, and joined to again.
fn are_joined<'a>(
    alloc: Global,
    blocks: (&'a Data, &'a Data, &'a Data),
    want: &Data,
) -> Result<bool, Fault> {
    let (one, two, three) = blocks;
    let mut joined = Fragments::new(two);
    append(alloc, &mut joined, three)?;
    prepend(alloc, &mut joined, one)?;
    let are_fragments = are_data(alloc, &joined, want)?;
    joined.join(alloc)?;
    let are_one = are_data(alloc, &joined, want)?;
    append(alloc, &mut joined, one)?;
    Ok(are_fragments && are_one && are_shared(alloc, &joined, 8)?)
}

/// Returns the blocks of these texts. A local block is proved variant by variant on each way out;
/// a vector of them isn't.
fn blocks_of(alloc: Global, texts: &[&str]) -> Result<Vec<Data>, Fault> {
    let mut blocks = Vec::new(alloc);
    for text in texts {
        blocks.push(block_of(alloc, text)?)?;
    }
    Ok(blocks)
}

fn joins_three(alloc: Global) -> Result<bool, Fault> {
    let blocks = blocks_of(alloc, &["ab", "c", "def", "abcdef"])?;
    match blocks.as_slice() {
        [one, two, three, want] => are_joined(alloc, (one, two, three), want),
        _ => Err(Fault::BadEvent),
    }
}

#[test]
fn joins_with_ample_memory(rt: HostRuntime) {
    assert!(rt; joins_three(rt.alloc()) == Ok(true));
}

/// Has the sink take the data of two blocks, and then a number.
fn give_all(alloc: Global, front: &Data, back: &Data, taken: &mut Taken) -> Result<(), Fault> {
    two(alloc, front, back)?.give(taken)?;
    Fragments::from_number(17).give(taken)?;
    Ok(())
}

/// Returns whether the sink has taken these bytes, in blocks of these lengths.
fn has_taken(taken: &Taken, bytes: &[u8], blocks: &[usize]) -> bool {
    taken.bytes.as_slice() == bytes && taken.blocks.as_slice() == blocks
}

fn are_given_whole(alloc: Global) -> Result<bool, Fault> {
    let blocks = blocks_of(alloc, &["ab", "cde"])?;
    let mut taken = Taken {
        bytes: Vec::new(alloc),
        blocks: Vec::new(alloc),
    };
    if let [front, back] = blocks.as_slice() {
        give_all(alloc, front, back, &mut taken)?;
    }
    Ok(has_taken(&taken, b"abcde17", &[2, 3]))
}

#[test]
fn gives_each_block_whole(rt: HostRuntime) {
    assert!(rt; are_given_whole(rt.alloc()) == Ok(true));
}

/// Returns the reply that shows a value of this block.
fn reply_of<'a>(alloc: Global, block: &'a Data) -> Result<Reply<'a>, Fault> {
    let value = Value {
        key: key_of(alloc, "key")?,
        flags: 1,
        block: Fragments::new(block),
        unique: None,
    };
    Ok(Reply::Values(ValueList::new(vec![in alloc; value]?)))
}

/// Returns a reply that is kept past the block which it borrowed.
fn kept_reply(alloc: Global) -> Result<Reply<'static>, Fault> {
    let block = block_of(alloc, "data")?;
    let reply = reply_of(alloc, &block)?;
    let kept = reply.into_owned(alloc)?;
    Ok(kept)
}

/// Returns whether the reply shows one value, of these data.
fn shows_data(alloc: Global, reply: &Reply<'_>, data: &[u8]) -> Result<bool, Fault> {
    let Reply::Values(values) = reply else {
        return Ok(false);
    };
    let [value] = values.as_slice() else {
        return Ok(false);
    };
    Ok(value.block.to_data(alloc)?.as_bytes() == data)
}

fn is_kept(alloc: Global) -> Result<bool, Fault> {
    let kept = kept_reply(alloc)?;
    let is_shown = shows_data(alloc, &kept, b"data");
    // A local enum that its block drops is proved variant by variant, on each way out.
    drop(kept);
    is_shown
}

#[test]
fn keeps_a_reply_past_what_it_borrows(rt: HostRuntime) {
    assert!(rt; is_kept(rt.alloc()) == Ok(true));
}
