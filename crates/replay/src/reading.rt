// The next case from the input. A case whose call is 0 ends the run.
use crate::input;
use replay_head::Case;

// The case of the next 144 bytes.
fn read_head() -> Case {
    let mut b = [0u8; 144];
    if input::fill(&mut b) {
        replay_head::case_of(&b)
    } else {
        replay_head::none()
    }
}

// The next case, with the bytes of its operations at the start of buf.
pub(crate) fn next(buf: &mut [u8; 65536]) -> Case {
    let c = read_head();
    let h = c.head;
    if !replay_head::allowed(h) {
        return replay_head::none();
    }
    if !input::op_bytes(slice::wide(h.op_count), buf) {
        return replay_head::none();
    }
    c
}

// Reads n floats to the start of the list, and passes over further numbers.
fn read_list(n: usize, numbers: usize, list: &mut [f64]) -> bool {
    if list.len() < n {
        return false;
    }
    if !input::floats(&mut list[..n]) {
        return false;
    }
    input::skip_words(numbers)
}

// The case with its list read to the start of list.
pub(crate) fn listed(c: Case, list: &mut [f64]) -> Case {
    let h = c.head;
    if read_list(replay_head::list_floats(h), replay_head::passed(h), list) {
        c
    } else {
        replay_head::none()
    }
}
