// The one queue at three kinds of element: frames, bytes and indices.
use crate::Queue;

// As large as a frame: six numbers.
#[derive(Clone, Copy, PartialEq, Eq, Debug)]
struct Six {
    flow: u8,
    hop: u8,
    length: u32,
    origin: u64,
    entry: u64,
    due: u64,
}

fn frame(flow: u8, due: u64) -> Six {
    Six {
        flow,
        hop: 1,
        length: 1000,
        origin: 7,
        entry: 9,
        due,
    }
}

#[test]
fn frames_leave_in_order_with_every_field(rt: HostRuntime) {
    let mut places = [frame(0, 0); 2];
    let mut queue = Queue::new(&mut places);
    assert_eq!(rt; queue.push(frame(1, 30)), Ok(()));
    assert_eq!(rt; queue.push(frame(2, 40)), Ok(()));
    assert_eq!(rt; queue.push(frame(3, 50)), Err(frame(3, 50)));
    assert_eq!(rt; queue.get(1), Some(frame(2, 40)));
    assert_eq!(rt; queue.pop(), Some(frame(1, 30)));
    assert_eq!(rt; queue.push(frame(3, 50)), Ok(()));
    assert_eq!(rt; queue.pop(), Some(frame(2, 40)));
    assert_eq!(rt; queue.pop(), Some(frame(3, 50)));
    assert_eq!(rt; queue.pop(), None);
}

#[test]
fn bytes_stay_where_they_were_written(rt: HostRuntime) {
    let mut place = [46u8; 5];
    {
        let mut queue = Queue::new(&mut place);
        assert_eq!(rt; queue.push(79), Ok(()));
        assert_eq!(rt; queue.push(75), Ok(()));
        assert_eq!(rt; queue.len(), 2);
        assert_eq!(rt; queue.capacity(), 5);
    }
    assert_eq!(rt; place, [79, 75, 46, 46, 46]);
}

#[test]
fn indices_start_over_after_a_clear(rt: HostRuntime) {
    let mut ports = [9usize; 3];
    {
        let mut queue = Queue::new(&mut ports);
        assert_eq!(rt; queue.push(4), Ok(()));
        assert_eq!(rt; queue.pop(), Some(4));
        queue.clear();
        assert_eq!(rt; queue.push(5), Ok(()));
        assert_eq!(rt; queue.get(0), Some(5));
        assert_eq!(rt; queue.get(1), None);
    }
    assert_eq!(rt; ports, [5, 9, 9]);
}
