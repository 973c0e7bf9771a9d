use crate::runs::{mixed, times};
use crate::texts::{Naming, lines};
use chart::pieces::Side;
use std::test::Fail;

#[test]
fn names_by_number(rt: HostRuntime) -> Result<(), Fail> {
    let names = Naming {
        heap: rt.alloc(),
        between: b"_x_",
    };
    assert_eq!(rt; names.instances(0)?.as_slice(), b"i_x_00".as_slice());
    assert_eq!(rt;
        names.instances(3)?.as_slice(),
        b"i_x_00, i_x_01, i_x_02".as_slice()
    );
    Ok(())
}

#[test]
fn lines_of_events(rt: HostRuntime) -> Result<(), Fail> {
    let names = Naming {
        heap: rt.alloc(),
        between: b"",
    };
    let out = names.line(Side::Out, 63, 1, 15)?;
    assert_eq!(rt; out.as_slice(), b"i01: out m63 to i15;\n".as_slice());
    let back = names.line(Side::In, 109, 1, 15)?;
    assert_eq!(rt; back.as_slice(), b"i15: in m09 from i01;\n".as_slice());
    let sends = lines(rt.alloc(), Side::Out, 2)?;
    assert_eq!(rt;
        sends.as_slice(),
        b"p: out m00 to q;p: out m01 to q;".as_slice()
    );
    Ok(())
}

#[test]
fn a_whole_chart(rt: HostRuntime) -> Result<(), Fail> {
    let names = Naming {
        heap: rt.alloc(),
        between: b"",
    };
    let text = names.chart(b"two", 2, b"LINES")?;
    assert_eq!(rt;
        text.as_slice(),
        b"msc two; inst i00, i01;\nLINESendmsc;".as_slice()
    );
    Ok(())
}

#[test]
fn counts_of_runs(rt: HostRuntime) -> Result<(), Fail> {
    assert_eq!(rt; times(None, 200), Ok(200));
    assert_eq!(rt;
        times(Some(String::from_str(rt.alloc(), "20000")?), 200),
        Ok(20_000)
    );
    assert!(rt; times(Some(String::from_str(rt.alloc(), "2x")?), 200).is_err());
    assert_eq!(rt; mixed(mixed(0, 1), 2), 33);
    Ok(())
}
