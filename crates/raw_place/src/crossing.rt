//! Owners may cross threads where their values may.
use crate::{Kids, Place};
use std::marker::{Send, Sync};

fn is_sent<T: Send>(_value: &T) {}

fn is_shared<T: Sync>(_value: &T) {}

/// Both owners may be moved to another thread where their values may.
pub fn owners_are_sent<T: Send>(kids: &Kids<T>, place: &Place<T>) {
    is_sent(kids);
    is_sent(place);
}

/// Both owners may be lent to other threads where their values may.
pub fn owners_are_shared<T: Sync>(kids: &Kids<T>, place: &Place<T>) {
    is_shared(kids);
    is_shared(place);
}
