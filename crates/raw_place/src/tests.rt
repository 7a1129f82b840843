//! Values that come back from their places, and rows of none.
use crate::{Kids, Place, put_if, take_if};
use std::test::Fail;
use unit_pass::NoMemory;

#[test]
fn kids_give_their_values_back(rt: HostRuntime) -> Result<(), Fail> {
    let items = vec![in rt.alloc(); 1u64, 2, 3]?;
    let mut kids = match Kids::from_vec(rt.alloc(), items) {
        Ok(kids) => kids,
        Err((items, NoMemory)) => {
            assert_eq!(rt; items.as_slice(), [1, 2, 3].as_slice());
            panic!(rt; "no memory, and the values came back");
        }
    };
    let mut other = 9;
    kids.swap(1, &mut other);
    let told = (other, kids.len(), *kids.get(1));
    let popped = [kids.pop(), kids.pop(), kids.pop(), kids.pop()];
    kids.destroy_empty();
    assert_eq!(rt; told, (2, 3, 9));
    assert_eq!(rt; popped, [Some(3), Some(9), Some(1), None]);
    Ok(())
}

#[test]
fn no_kids_are_an_empty_row(rt: HostRuntime) {
    let Ok(mut kids) = Kids::from_vec(rt.alloc(), Vec::<u64>::new(rt.alloc())) else {
        panic!(rt; "no memory");
    };
    let len = kids.len();
    let None = kids.pop() else {
        panic!(rt; "a value of none");
    };
    kids.destroy_empty();
    assert_eq!(rt; len, 0);
}

#[test]
fn place_gives_its_value_back(rt: HostRuntime) {
    let mut place = match Place::put(rt.alloc(), 5u64) {
        Ok(place) => place,
        Err((value, NoMemory)) => {
            assert_eq!(rt; value, 5);
            panic!(rt; "no memory, and the value came back");
        }
    };
    let mut other = 6;
    place.swap(&mut other);
    let read = *place.get();
    *place.get_mut() += 1;
    assert_eq!(rt; (other, read, place.take()), (5, 6, 7));
    for value in [None, Some(4u64)] {
        let Ok(place) = put_if(rt.alloc(), value) else {
            panic!(rt; "no memory");
        };
        assert_eq!(rt; take_if(place), value);
    }
}
