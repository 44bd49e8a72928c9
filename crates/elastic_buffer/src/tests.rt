//! A buffer that wraps round.
use crate::ElasticBuffer;
use link_params::{LaneCell, Mark};
use std::test::Fail;

fn cell(value: u64) -> LaneCell {
    LaneCell {
        value,
        mark: Mark::Ok,
    }
}

#[test]
fn first_in_first_out(rt: HostRuntime) -> Result<(), Fail> {
    let mut buffer = ElasticBuffer::open(rt.alloc(), 2).ok().ok_or("memory")?;
    buffer.push(cell(1));
    buffer.push(cell(2));
    assert_eq!(rt; buffer.pop(), cell(1));
    buffer.push(cell(3));
    assert_eq!(rt; buffer.len(), 2);
    assert_eq!(rt; buffer.pop(), cell(2));
    assert_eq!(rt; buffer.pop(), cell(3));
    buffer.push(cell(4));
    buffer.clear();
    assert_eq!(rt; buffer.len(), 0);
    Ok(())
}
