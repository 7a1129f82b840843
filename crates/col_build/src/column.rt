//! A finished column: its counts and the views of its buffers.
use buf_block::BufView;

/// The buffers of a finished column ("Arrow Columnar Format", "Physical memory layout"): the validity bitmap, then the data,
/// or the offsets and the data. A buffer of no bytes is absent, but an offsets buffer is always there. It can't be dropped,
/// since the holds of its buffers can't.
pub struct FinishedColumn {
    /// The number of items.
    pub length: i64,
    /// The number of null items.
    pub null_count: i64,
    /// The buffers, each a part of a block; none for an absent one.
    pub buffers: Vec<Option<BufView>>,
}
