// The table of kinds for machines, on standard output. It reads nothing.
#![tactic(auto)]

use program::System;

fn tell_kinds(rt: &impl System) -> bool {
    let mut text = [0u8; 8192];
    let n = kinds::say_kinds(&mut text);
    program::send(rt, &text[..n])
}

fn main(rt: HostRuntime) {
    if tell_kinds(&rt) {
        program::tell_status(&rt, b'0');
    } else {
        program::tell_status(&rt, b'1');
    }
}
