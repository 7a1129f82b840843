//! A desk that closes once all its units are back, names that give their bytes back, and the text of `NoMemory`.
use crate::{Audit, Name, NoMemory, SUPPLY, open_desk};
use std::test::Fail;

#[test]
fn desk_closes_with_all_units(rt: HostRuntime) {
    let (desk, mut pass) = open_desk();
    let unit = pass.draw();
    let mut part = pass.split(8);
    part.count_block();
    part.count_node();
    pass.count_node();
    let out = [pass.units(), part.units(), part.blocks(), pass.nodes()];
    pass.join(part);
    pass.give_back(unit);
    let back = [pass.units(), pass.blocks(), pass.nodes()];
    let audit = desk.close(pass);
    assert_eq!(rt; out, [SUPPLY - 9, 8, 1, 1]);
    assert_eq!(rt; back, [4294967296, 1, 2]);
    assert_eq!(rt;
        audit,
        Audit {
            blocks: 1,
            nodes: 2,
            left: 0
        }
    );
}

#[test]
fn name_gives_its_bytes_back(rt: HostRuntime) -> Result<(), Fail> {
    for bytes in [b"".as_slice(), b"id".as_slice(), b"caf\xff".as_slice()] {
        let Ok(name) = Name::from_slice(rt.alloc(), bytes) else {
            assert!(rt; false, "no memory");
            return Ok(());
        };
        assert_eq!(rt; name.as_slice(), bytes);
        let Ok(shared) = name.share(rt.alloc()) else {
            assert!(rt; false, "no memory");
            return Ok(());
        };
        let Ok(again) = shared.share(rt.alloc()) else {
            assert!(rt; false, "no memory");
            return Ok(());
        };
        assert_eq!(rt; again.as_slice(), bytes);
        for held in [name, shared, again] {
            let Ok(given) = held.into_vec(rt.alloc()) else {
                assert!(rt; false, "no memory");
                return Ok(());
            };
            let moved = Name::from_vec(given);
            assert_eq!(rt; moved.as_slice(), bytes);
        }
    }
    Ok(())
}

#[test]
fn want_of_memory_has_its_text(rt: HostRuntime) -> Result<(), Fail> {
    assert_eq!(rt; NoMemory.to_string(rt.alloc())?.as_str(), "out of memory");
    Ok(())
}
