// Each list that takes memory, made once and read back.

use lg_base::{ArgImage, CodeBytes, DataImage, Origin, OutOfMemory, Places};
use lg_node::LabelAddresses;
use std::alloc::Global;
use std::test::Fail;

fn is_code_held(alloc: Global) -> Result<bool, OutOfMemory> {
    let bytes = CodeBytes::of(alloc, &[1, 2, 3])?;
    Ok(bytes.as_slice() == [1, 2, 3].as_slice())
}

fn is_grown_code_held(alloc: Global) -> Result<bool, OutOfMemory> {
    let mut grown = CodeBytes::with_room(alloc, 2)?;
    let was_empty = grown.is_empty();
    grown.push(7);
    grown.push(8);
    Ok(was_empty && grown.len() == 2 && grown.get(1) == 8)
}

fn is_data_held(alloc: Global) -> Result<bool, OutOfMemory> {
    let data = DataImage::of(alloc, b"data")?;
    Ok(data.as_slice() == b"data".as_slice() && data.get(1) == b'a')
}

fn are_args_held(alloc: Global) -> Result<bool, OutOfMemory> {
    let args = ArgImage::of(alloc, b"args")?;
    Ok(args.as_slice() == b"args".as_slice() && args.get(0) == b'a')
}

fn are_places_held(alloc: Global) -> Result<bool, OutOfMemory> {
    let places = Places::of(alloc, &[4, 8])?;
    Ok(places.as_slice() == [4, 8].as_slice())
}

fn are_grown_places_held(alloc: Global) -> Result<bool, OutOfMemory> {
    let mut grown = Places::with_room(alloc, 1)?;
    grown.push(12);
    Ok(grown.get(0) == 12)
}

fn is_origin_held(alloc: Global) -> Result<bool, OutOfMemory> {
    let origin = Origin::of(alloc, &[0, 2])?;
    let mut grown = Origin::with_room(alloc, 1)?;
    grown.push(5);
    Ok(origin.as_slice() == [0, 2].as_slice() && grown.get(0) == 5)
}

fn are_addresses_held(alloc: Global) -> Result<bool, OutOfMemory> {
    let addresses = LabelAddresses::of(alloc, &[0x1000_0000])?;
    Ok(addresses.get(0) == 0x1000_0000 && addresses.len() == 1)
}

// Whether each list holds what is put.
fn are_held(alloc: Global) -> Result<bool, OutOfMemory> {
    let is_code = is_code_held(alloc)? && is_grown_code_held(alloc)?;
    let are_images = is_data_held(alloc)? && are_args_held(alloc)?;
    let are_places = are_places_held(alloc)? && are_grown_places_held(alloc)?;
    let are_others = is_origin_held(alloc)? && are_addresses_held(alloc)?;
    Ok(is_code && are_images && are_places && are_others)
}

#[test]
fn holds_what_is_put(rt: HostRuntime) -> Result<(), Fail> {
    assert!(rt; are_held(rt.alloc())?);
    Ok(())
}
