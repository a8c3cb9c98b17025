use recording::{Reason, TextError, WrongLine, parse};

// The wrong line of a text, if it has one.
fn wrong(rt: &HostRuntime, text: &str) -> Option<WrongLine> {
    match parse(rt.alloc(), text.as_bytes()) {
        Err(TextError::Wrong(w)) => Some(w),
        _ => None,
    }
}

fn at(line: u64, reason: Reason) -> Option<WrongLine> {
    Some(WrongLine { line, reason })
}

#[test]
fn good_texts(rt: HostRuntime) {
    assert_eq!(rt; wrong(&rt, "ticks 0"), None);
    assert_eq!(rt; wrong(&rt, "\n# note\n  ticks  281474976710656 \n"), None);
    assert_eq!(rt;
        wrong(&rt, "word 7fFF\npulse 4 2\nwave 1 0 0\nticks 10\n"),
        None
    );
}

#[test]
fn wrong_texts(rt: HostRuntime) {
    assert_eq!(rt; wrong(&rt, ""), at(1, Reason::NoTicks));
    assert_eq!(rt; wrong(&rt, "word 1\n"), at(2, Reason::NoTicks));
    assert_eq!(rt;
        wrong(&rt, "ticks 281474976710657"),
        at(1, Reason::BadTicks)
    );
    assert_eq!(rt; wrong(&rt, "ticks 1\nticks 1"), at(2, Reason::TwoTicks));
    assert_eq!(rt; wrong(&rt, "word 10000"), at(1, Reason::BadWord));
    assert_eq!(rt; wrong(&rt, "pulse 4 2\nword 1"), at(1, Reason::NoWord));
    assert_eq!(rt; wrong(&rt, "word 1\npulse 4"), at(2, Reason::BadPulse));
    assert_eq!(rt;
        wrong(&rt, "wave 1 2 18446744073709551616"),
        at(1, Reason::BadWave)
    );
    assert_eq!(rt; wrong(&rt, "steady 1"), at(1, Reason::UnknownLine));
}
