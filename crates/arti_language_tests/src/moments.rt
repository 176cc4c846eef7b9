//! Dates and spans of time on outside examples and at their edges.
use arti_rows::Moment;
use arti_time::{print, read_date, read_span};
use std::test::Fail;

#[test]
fn dates(rt: HostRuntime) {
    for (text, ms) in [
        ("1970-01-01T01:00:00+01:00", Some(0)),
        ("2020-02-30", None),
        ("0001-01-01", Some(-62135596800000)),
        ("0000-12-31", None),
        ("0001-01-01T00:00:00+00:01", None),
        ("0001-01-01T00:59:00-00:01", Some(-62135593200000)),
        ("9999-12-31T23:59:59.999Z", Some(253402300799999)),
        ("9999-12-31T23:59:59.999999999", Some(253402300799999)),
        ("9999-12-31T23:59:00-00:01", None),
        ("9999-12-31T23:59:59.999-00:00", Some(253402300799999)),
        ("10000-01-01", None),
        ("1900-02-29", None),
        ("2000-02-29", Some(951782400000)),
        ("2023-02-29", None),
        ("2024-02-29T24:00:00", None),
        ("2024-02-29T23:60:00", None),
        ("2024-02-29T23:59:60", None),
        ("2024-12-31T23:30:00-01:00", Some(1735691400000)),
        ("2025-01-01T00:30:00+01:00", Some(1735687800000)),
        ("2024-12-31T23:30:00.5-0130", Some(1735693200500)),
        ("2025-06-07T08:09:10.1239+23:59", Some(1749197410123)),
        ("2025-06-07T08:09:10.12", Some(1749283750120)),
        ("2025-06-07T08:09:10.", None),
        ("2025-06-07T08:09:10.1234567890", None),
        ("2025-06-07T08:09:10+24:00", None),
        ("2025-06-07T08:09:10+01", None),
        ("2025-06-07T08:09:10z", None),
        ("2025-06-07T08:09", None),
        ("2025-06-07Z", None),
        ("2025-6-07", None),
        ("2025-06-07 08:09:10", None),
        ("", None),
        ("1969-12-31T23:59:59.999Z", Some(-1)),
        ("2025-06-07T08:09:10+0100", Some(1749280150000)),
        ("2025-06-07T08:09:10ZZ", None),
        ("2025-00-10", None),
        ("2025-13-01", None),
        ("2025-04-31", None),
        ("２０２５-01-01", None),
    ] {
        let read = read_date(text).ok().map(|moment| moment.ms());
        assert_eq!(rt; read, ms, "{text}");
    }
}

#[test]
fn spans(rt: HostRuntime) {
    for (text, ms) in [
        ("2w", Some(1209600000)),
        ("2m", None),
        ("999999years", Some(31535968464000000)),
        ("1000000d", None),
        ("1ms", Some(1)),
        ("7mills", Some(7)),
        ("3s", Some(3000)),
        ("4seconds", Some(4000)),
        ("5minutes", Some(300000)),
        ("6d", Some(518400000)),
        ("8days", Some(691200000)),
        ("9weeks", Some(5443200000)),
        ("10mo", Some(25920000000)),
        ("11months", Some(28512000000)),
        ("12y", Some(378432000000)),
        ("s", None),
        ("0s", Some(0)),
        ("007d", Some(604800000)),
        ("1 d", None),
        ("1D", None),
        ("-1d", None),
        ("1.5d", None),
        ("1minute", None),
        ("1h", None),
        ("", None),
    ] {
        assert_eq!(rt; read_span(text).ok(), ms, "{text}");
    }
}

#[test]
fn printed(rt: HostRuntime) -> Result<(), Fail> {
    for (ms, text) in [
        (0, "1970-01-01T00:00:00.000Z"),
        (-62135596800000, "0001-01-01T00:00:00.000Z"),
        (253402300799999, "9999-12-31T23:59:59.999Z"),
        (-1, "1969-12-31T23:59:59.999Z"),
        (951782400000, "2000-02-29T00:00:00.000Z"),
        (1749283750123, "2025-06-07T08:09:10.123Z"),
        (-2203891200001, "1900-02-28T23:59:59.999Z"),
    ] {
        let Some(moment) = Moment::new(ms) else {
            panic!(rt; "{ms} is a moment");
        };
        let printed = print(rt.alloc(), moment)?;
        assert_eq!(rt; printed.as_str(), text, "{ms}");
        let again = read_date(printed.as_str()).ok().map(|moment| moment.ms());
        assert_eq!(rt; again, Some(ms), "{text}");
    }
    Ok(())
}
