// The boot call on document 01's example, and on a damaged input or a table at each limit. A line is number, place and window.
#![tactic(auto)]

use std::io;
use telling::{end_line, number, say};

fn show(rt: &impl Print, bytes: &[u8]) -> io::Result<()> {
    let a = boot::pyeodasik_boot(bytes);
    number(rt, u64::from(a.number))?;
    say(rt, u64::from(a.place))?;
    say(rt, u64::from(a.window))?;
    end_line(rt)?;
    Ok(())
}

fn main(rt: HostRuntime) -> io::Result<()> {
    // the paper's example
    show(
        &rt,
        b"\x01\x06\x00\x02\x00\x03\x00\x05\x00\x01\x06\x00\x02\x00\x08\x00\x0a\x00\x02\x06\x00\x01\x00\x00\x00\x02\x00\x03\x04\x00\x0a\x00\x00\x00",
    )?;
    // no byte: 19 at the input's length
    show(&rt, b"")?;
    // 19: a byte after tag 3
    show(
        &rt,
        b"\x01\x06\x00\x02\x00\x03\x00\x05\x00\x03\x04\x00\x0a\x00\x00\x00\x00",
    )?;
    // 2: the second task's deadline lies before its work is done
    show(
        &rt,
        b"\x01\x06\x00\x02\x00\x03\x00\x05\x00\x01\x06\x00\x09\x00\x08\x00\x0a\x00\x03\x04\x00\x0a\x00\x00\x00",
    )?;
    // 3: periods 9,999 and 10,000
    show(
        &rt,
        b"\x01\x06\x00\x01\x00\x0f\x27\x0f\x27\x01\x06\x00\x01\x00\x10\x27\x10\x27\x03\x04\x00\x0a\x00\x00\x00",
    )?;
    // 1,024 places
    show(
        &rt,
        b"\x01\x06\x00\x01\x00\x02\x00\x02\x00\x01\x06\x00\x01\x00\xfe\x07\xfe\x07\x03\x04\x00\x0a\x00\x00\x00",
    )?;
    // 4: 1,025 places
    show(
        &rt,
        b"\x01\x06\x00\x01\x00\x02\x00\x02\x00\x01\x06\x00\x01\x00\xfd\x07\xfe\x07\x03\x04\x00\x0a\x00\x00\x00",
    )?;
    // 6: overloaded at 3, of load 1
    show(
        &rt,
        b"\x01\x06\x00\x02\x00\x02\x00\x04\x00\x01\x06\x00\x02\x00\x03\x00\x04\x00\x03\x04\x00\x0a\x00\x00\x00",
    )?;
    Ok(())
}
