//! Each constructor at its bounds, and each call that needs memory, with ample memory.
use bytes::Bytes;
use mc_model::{
    Data, Fault, Key, KeyBlock, KeyList, Limits, Settings, TenantId, ValueList, WorkerId,
    read_number,
};
use shared_tests::values::{Shown, block_of, copied, copy_of, key_of, limit_of, value_of};
use std::alloc::Global;
use std::process::Abort;
use std::test::Fail;

/// Returns whether the bytes make a key. Returns `BadEvent` if it has other bytes, or a copy unlike
/// it.
fn is_key(alloc: Global, bytes: &[u8]) -> Result<bool, Fault> {
    let Some(key) = Key::new(alloc, bytes)? else {
        return Ok(false);
    };
    if key.as_bytes() == bytes && key.try_clone()? == key {
        Ok(true)
    } else {
        Err(Fault::BadEvent)
    }
}

fn assert_key(rt: &impl Abort, alloc: Global, bytes: &[u8], lawful: bool) {
    assert!(rt; Key::is_lawful(bytes) == lawful, "{bytes:?}");
    assert!(rt; is_key(alloc, bytes) == Ok(lawful), "{bytes:?}");
}

#[test]
fn keys_at_their_bounds(rt: HostRuntime) -> Result<(), Fail> {
    let longest = vec![in rt.alloc(); b'k'; 250]?;
    let too_long = vec![in rt.alloc(); b'k'; 251]?;
    let cases = [
        (longest.as_slice(), true),
        (too_long.as_slice(), false),
        (b"k".as_slice(), true),
        (b"".as_slice(), false),
        (b"!~".as_slice(), true),
        (b"\x80\xff".as_slice(), true),
        (b"a\x7fb".as_slice(), false),
        (b"a b".as_slice(), false),
        (b"a\x1f".as_slice(), false),
    ];
    for (bytes, lawful) in cases {
        assert_key(&rt, rt.alloc(), bytes, lawful);
    }
    Ok(())
}

/// Returns whether this many bytes make a block. Returns `BadEvent` if it has another length, or a
/// copy unlike it.
fn is_block(alloc: Global, length: usize) -> Result<bool, Fault> {
    let Some(block) = Data::new(vec![in alloc; 7u8; length]?) else {
        return Ok(false);
    };
    if block.as_bytes().len() == length && block.try_clone()? == block {
        Ok(true)
    } else {
        Err(Fault::BadEvent)
    }
}

#[test]
fn blocks_at_their_bound(rt: HostRuntime) {
    assert!(rt; is_block(rt.alloc(), 1_048_576) == Ok(true));
    assert!(rt; is_block(rt.alloc(), 1_048_577) == Ok(false));
}

/// Returns whether blocks of these bytes are equal.
fn are_equal_blocks(alloc: Global, one: &str, other: &str) -> Result<bool, Fault> {
    let one = block_of(alloc, one.as_bytes())?;
    let other = block_of(alloc, other.as_bytes())?;
    Ok(one == other)
}

/// Returns whether this many bytes make a block that shares them. Returns `BadEvent` if it has
/// another length, or a copy unlike it.
fn is_shared_block(alloc: Global, length: usize) -> Result<bool, Fault> {
    let bytes = Bytes::from_vec(vec![in alloc; 7u8; length]?)?;
    let Some(block) = Data::from_bytes(bytes) else {
        return Ok(false);
    };
    if block.as_bytes().len() == length && block.try_clone()? == block {
        Ok(true)
    } else {
        Err(Fault::BadEvent)
    }
}

#[test]
fn shared_blocks_at_their_bound(rt: HostRuntime) {
    assert!(rt; is_shared_block(rt.alloc(), 1_048_576) == Ok(true));
    assert!(rt; is_shared_block(rt.alloc(), 1_048_577) == Ok(false));
    assert!(rt; is_shared_block(rt.alloc(), 0) == Ok(true));
}

/// Returns a block that shares a part of a buffer, which is gone.
fn part_of_a_buffer(alloc: Global) -> Result<Data, Fault> {
    let buffer: Bytes = Bytes::copy_from_slice(alloc, b"set a 0 0 2\r\nab\r\n")?;
    Data::from_bytes(buffer.slice(13..15)?).ok_or(Fault::BadEvent)
}

/// Returns a copy of such a block, which is gone too.
fn copy_of_a_part(alloc: Global) -> Result<Data, Fault> {
    part_of_a_buffer(alloc)?.try_clone()
}

/// A block that shares a part of a buffer is equal to one with these bytes of its own, and its copy
/// outlives it and the buffer.
#[test]
fn a_shared_block_outlives_its_buffer(rt: HostRuntime) {
    let own = block_of(rt.alloc(), b"ab");
    assert!(rt; part_of_a_buffer(rt.alloc()) == own);
    assert!(rt; copy_of_a_part(rt.alloc()) == own);
    assert!(rt; own != block_of(rt.alloc(), b"ba"));
}

/// Blocks of one length are equal exactly if their bytes are, in order.
#[test]
fn blocks_compared(rt: HostRuntime) {
    for (bytes, alike) in [("ab", true), ("ba", false), ("ac", false), ("a", false)] {
        assert!(rt;
            are_equal_blocks(rt.alloc(), bytes, "ab") == Ok(alike),
            "{bytes}"
        );
    }
}

/// Returns the list of two keys, for which the block has room from the start.
fn keys_of(alloc: Global, first: &str, second: &str) -> Result<KeyList, Fault> {
    let size = first.len().saturating_add(second.len()).saturating_add(2);
    let mut keys = KeyBlock::with_capacity(alloc, size)?;
    let (first, second) = (keys.push(first.as_bytes())?, keys.push(second.as_bytes())?);
    if !first || !second {
        return Err(Fault::BadEvent);
    }
    KeyList::new(keys).ok_or(Fault::BadEvent)
}

/// Returns whether the list shows these keys, one after another.
fn shows(list: &KeyList, keys: &[&str]) -> bool {
    let mut texts = list.texts();
    for key in keys {
        if texts.next() != Some(key.as_bytes()) {
            return false;
        }
    }
    texts.next().is_none() && list.len() == keys.len()
}

/// Returns whether the list and its copy show these keys.
fn are_keys(list: &KeyList, keys: &[&str]) -> Result<bool, Fault> {
    let copy = list.try_clone()?;
    Ok(copy == *list && shows(&copy, keys) && shows(list, keys))
}

fn come_back(alloc: Global, first: &str, second: &str) -> Result<bool, Fault> {
    are_keys(&keys_of(alloc, first, second)?, &[first, second])
}

#[test]
fn keys_there_and_back(rt: HostRuntime) {
    assert!(rt; come_back(rt.alloc(), "a", "b") == Ok(true));
    assert!(rt;
        come_back(rt.alloc(), "a key of thirty bytes (of them)", "b") == Err(Fault::BadEvent)
    );
    assert!(rt; come_back(rt.alloc(), "a_key_of_thirty_bytes_or_so_by", "b") == Ok(true));
}

/// A list made of one key is the one made of a block of it.
fn single_comes_back(alloc: Global) -> Result<bool, Fault> {
    let mut keys = KeyBlock::new(alloc);
    keys.push(b"a")?;
    let list = KeyList::single(key_of(alloc, "a")?);
    let in_block = KeyList::new(keys).ok_or(Fault::BadEvent)?;
    let is_shown = are_keys(&list, &["a"])? && are_keys(&in_block, &["a"])?;
    Ok(is_shown && in_block == list && list == in_block && list.size() == in_block.size())
}

/// A block takes no word that isn't a valid key, and is as it was then.
fn unlawful_is_left_out(alloc: Global) -> Result<bool, Fault> {
    let mut keys = KeyBlock::new(alloc);
    let (first, second) = (keys.push(b"a")?, keys.push(b"b c")?);
    let list = KeyList::new(keys).ok_or(Fault::BadEvent)?;
    Ok(first && !second && shows(&list, &["a"]) && list.size() == 2)
}

#[test]
fn no_unlawful_key_in_a_block(rt: HostRuntime) {
    assert!(rt; unlawful_is_left_out(rt.alloc()) == Ok(true));
}

#[test]
fn one_key_there_and_back(rt: HostRuntime) {
    assert!(rt; single_comes_back(rt.alloc()) == Ok(true));
}

#[test]
fn no_list_without_keys(rt: HostRuntime) {
    assert!(rt; KeyList::new(KeyBlock::new(rt.alloc())).is_none());
}

/// Returns whether two keys make a list that is equal to that of `a` and `b`.
fn is_key_list(alloc: Global, first: &str, second: &str) -> Result<bool, Fault> {
    let list = keys_of(alloc, "a", "b")?;
    let other = keys_of(alloc, first, second)?;
    Ok(list == other)
}

/// Lists of equally many keys are equal exactly if their keys are, in order.
#[test]
fn keys_compared(rt: HostRuntime) {
    const CASES: [(&str, &str, bool); 5] = [
        ("a", "b", true),
        ("b", "a", false),
        ("a", "c", false),
        ("c", "b", false),
        ("a", "a", false),
    ];
    for (first, second, alike) in CASES {
        assert!(rt;
            is_key_list(rt.alloc(), first, second) == Ok(alike),
            "{first} {second}"
        );
    }
}

fn values_of(alloc: Global, first: Shown, second: Shown) -> Result<ValueList<'static>, Fault> {
    let (first, second) = (value_of(alloc, first)?, value_of(alloc, second)?);
    Ok(ValueList::new(vec![in alloc; first, second]?))
}

/// Returns whether a list of one value shows it alone, and gives it back.
fn one_value_comes_back(alloc: Global) -> Result<bool, Fault> {
    let value = value_of(alloc, ("a", 5, "", Some(1)))?;
    let list = ValueList::new(vec![in alloc; value]?);
    Ok(list.as_slice().len() == 1 && list.into_values().len() == 1)
}

#[test]
fn values_there_and_back(rt: HostRuntime) {
    assert!(rt; one_value_comes_back(rt.alloc()) == Ok(true));
    assert!(rt; ValueList::new(Vec::new(rt.alloc())).as_slice().is_empty());
}

/// Returns whether two values make a list that is equal to that of `FIRST` and `SECOND`.
fn is_value_list(alloc: Global, first: Shown, second: Shown) -> Result<bool, Fault> {
    let list = values_of(alloc, FIRST, SECOND)?;
    let other = values_of(alloc, first, second)?;
    Ok(list == other)
}

const FIRST: Shown = ("a", 5, "x", Some(1));

const SECOND: Shown = ("b", 6, "y", None);

/// Lists of equally many values are equal exactly if each part of their values is, in order.
#[test]
fn values_compared(rt: HostRuntime) {
    const CASES: [(Shown, Shown, bool); 8] = [
        (FIRST, SECOND, true),
        (SECOND, FIRST, false),
        (("c", 5, "x", Some(1)), SECOND, false),
        (("a", 4, "x", Some(1)), SECOND, false),
        (("a", 5, "y", Some(1)), SECOND, false),
        (("a", 5, "x", Some(2)), SECOND, false),
        (FIRST, ("b", 6, "y", Some(0)), false),
        (FIRST, FIRST, false),
    ];
    for (first, second, alike) in CASES {
        assert!(rt; is_value_list(rt.alloc(), first, second) == Ok(alike));
    }
}

/// Fails if a copy of the command isn't equal to it.
fn check_copy(alloc: Global, text: &str) -> Result<(), Fault> {
    drop(copied(alloc, text)?);
    Ok(())
}

/// Fails if a copy of a command that sets quotas isn't equal to it.
fn check_copied_limit() -> Result<(), Fault> {
    let limit = limit_of(1, 2);
    let copy = copy_of(&limit);
    drop(limit);
    drop(copy?);
    Ok(())
}

#[test]
fn each_command_copied(rt: HostRuntime) {
    const TEXTS: [&str; 11] = [
        "cas a 1 0 1 2\r\nx\r\n",
        "gets a a\r\n",
        "delete a\r\n",
        "incr a 3\r\n",
        "decr a 4\r\n",
        "flush_all\r\n",
        "set a 5 0 1\r\nx\r\n",
        "add a 5 0 1\r\nx\r\n",
        "replace a 5 0 1\r\nx\r\n",
        "append a 5 0 1\r\nx\r\n",
        "prepend a 5 0 1\r\nx\r\n",
    ];
    for text in TEXTS {
        assert!(rt; check_copy(rt.alloc(), text) == Ok(()), "{text}");
    }
    assert!(rt; check_copied_limit() == Ok(()));
}

fn tenant_number(number: u8) -> Option<u8> {
    Some(TenantId::new(number)?.number())
}

fn worker_number(number: u8) -> Option<u8> {
    Some(WorkerId::new(number)?.number())
}

#[test]
fn numbers_of_tenants_and_workers(rt: HostRuntime) {
    for (number, lawful) in [(0, true), (63, true), (64, false), (255, false)] {
        assert!(rt;
            tenant_number(number) == lawful.then_some(number),
            "{number}"
        );
    }
    for (number, lawful) in [(0, true), (15, true), (16, false), (255, false)] {
        assert!(rt;
            worker_number(number) == lawful.then_some(number),
            "{number}"
        );
    }
}

#[test]
fn numbers_in_a_line(rt: HostRuntime) {
    const CASES: [(&str, u64, Option<u64>); 7] = [
        ("0042", 42, Some(42)),
        ("43", 42, None),
        ("+1", 42, None),
        ("-1", 42, None),
        ("", 42, None),
        ("18446744073709551615", u64::MAX, Some(u64::MAX)),
        ("18446744073709551616", u64::MAX, None),
    ];
    for (text, limit, number) in CASES {
        assert!(rt; read_number(text.as_bytes(), limit) == number, "{text}");
    }
}

/// Returns what quotas two words are read as.
fn quotas_of(items: &str, bytes: &str) -> Option<(u64, u64)> {
    let limits = Limits::read(items.as_bytes(), bytes.as_bytes())?;
    Some((limits.items, limits.bytes))
}

#[test]
fn quotas_in_words(rt: HostRuntime) {
    const CASES: [(&str, &str, Option<(u64, u64)>); 10] = [
        ("1", "1", Some((1, 1))),
        ("007", "08", Some((7, 8))),
        ("1048576", "1073741824", Some((1_048_576, 1_073_741_824))),
        ("1048577", "1", None),
        ("1", "1073741825", None),
        ("0", "1", None),
        ("1", "0", None),
        ("", "1", None),
        ("1", "x", None),
        ("+1", "1", None),
    ];
    for (items, bytes, want) in CASES {
        assert!(rt; quotas_of(items, bytes) == want, "{items} {bytes}");
    }
}

/// Each tenant's quotas are checked, and not the first one's alone.
#[test]
fn the_second_tenants_quotas_count(rt: HostRuntime) -> Result<(), Fail> {
    let lawful = Limits { items: 1, bytes: 1 };
    let unlawful = Limits { items: 0, bytes: 1 };
    let quotas = vec![in rt.alloc(); lawful, unlawful]?;
    assert!(rt; Settings::check(1, 1, quotas).is_err());
    Ok(())
}

fn have(settings: &Settings, workers: u64, places: u64, tenants: usize) -> bool {
    settings.workers() == workers
        && settings.places() == places
        && settings.tenants().len() == tenants
}

/// Returns whether the numbers make settings. Returns `BadEvent` if these show others.
fn are_settings(
    alloc: Global,
    workers: u64,
    places: u64,
    tenants: usize,
    limits: Limits,
) -> Result<bool, Fault> {
    let quotas = vec![in alloc; limits; tenants]?;
    match Settings::check(workers, places, quotas) {
        Ok(settings) if have(&settings, workers, places, tenants) => Ok(true),
        Ok(_) => Err(Fault::BadEvent),
        Err(Fault::BadSettings) => Ok(false),
        Err(fault) => Err(fault),
    }
}

#[test]
fn settings_at_their_bounds(rt: HostRuntime) {
    // Workers, places, tenants, and the items and the bytes of each tenant.
    const CASES: [(u64, u64, usize, u64, u64, bool); 16] = [
        (0, 1, 1, 1, 1, false),
        (1, 1, 1, 1, 1, true),
        (16, 1, 1, 1, 1, true),
        (17, 1, 1, 1, 1, false),
        (1, 0, 1, 1, 1, false),
        (1, 1_048_576, 1, 1, 1, true),
        (1, 1_048_577, 1, 1, 1, false),
        (1, 1, 0, 1, 1, false),
        (1, 1, 64, 1, 1, true),
        (1, 1, 65, 1, 1, false),
        (1, 1, 1, 0, 1, false),
        (1, 1, 1, 1_048_576, 1, true),
        (1, 1, 1, 1_048_577, 1, false),
        (1, 1, 1, 1, 0, false),
        (1, 1, 1, 1, 1_073_741_824, true),
        (1, 1, 1, 1, 1_073_741_825, false),
    ];
    for (workers, places, tenants, items, bytes, lawful) in CASES {
        let limits = Limits { items, bytes };
        let made = are_settings(rt.alloc(), workers, places, tenants, limits);
        assert!(rt;
            made == Ok(lawful),
            "{workers} {places} {tenants} {items} {bytes}"
        );
    }
}

fn is_text_of(alloc: Global, fault: Fault, text: &str) -> Result<bool, Fault> {
    let shown = format!(in alloc; "{fault}")?;
    Ok(shown.as_str() == text)
}

#[test]
fn texts_of_faults(rt: HostRuntime) {
    const CASES: [(Fault, &str); 7] = [
        (Fault::Memory, "out of memory"),
        (Fault::LogFull, "log full"),
        (Fault::Taken, "cell taken"),
        (Fault::Input, "input failed"),
        (Fault::Output, "output failed"),
        (Fault::BadEvent, "event not enabled"),
        (Fault::BadSettings, "bad settings"),
    ];
    for (fault, text) in CASES {
        assert!(rt; is_text_of(rt.alloc(), fault, text) == Ok(true), "{text}");
    }
}
