// A line program reads bytes: its lines, and the requests that they spell.
#![tactic(auto)]

mod line;
mod request;

pub use line::split_line;
pub use request::Request;

#[cfg(test)]
mod tests {
    use super::*;
    use std::test::Fail;

    #[test]
    fn reads_requests(rt: HostRuntime) {
        let z = Request {
            letter: 'Z',
            rows: 5,
            columns: 3,
            inner: 0,
        };
        assert_eq!(rt; Request::read(b"Z 5 3"), Some(z));
        let h = Request {
            letter: 'H',
            rows: 16,
            columns: 16,
            inner: 4,
        };
        assert_eq!(rt; Request::read(b"H 16 16 4"), Some(h));
    }

    #[test]
    fn refuses_other_forms(rt: HostRuntime) {
        assert_eq!(rt; Request::read(b""), None);
        assert_eq!(rt; Request::read(b"R 5 3 0"), None);
        assert_eq!(rt; Request::read(b"H 5 3"), None);
        assert_eq!(rt; Request::read(b"Z 05 3"), None);
        assert_eq!(rt; Request::read(b"Z 5 12345"), None);
        assert_eq!(rt; Request::read(b"Z  5 3"), None);
        assert_eq!(rt; Request::read(b"Z 5 3 "), None);
    }

    #[test]
    fn splits_lines(rt: HostRuntime) -> Result<(), Fail> {
        let (line, rest) = split_line(b"a\nb").ok_or("no line")?;
        assert!(rt; line == b"a".as_slice());
        assert!(rt; rest == b"b".as_slice());
        let (line, rest) = split_line(b"\n").ok_or("no line")?;
        assert!(rt; line.is_empty());
        assert!(rt; rest.is_empty());
        Ok(())
    }

    #[test]
    fn has_no_line(rt: HostRuntime) {
        assert!(rt; split_line(b"").is_none());
    }
}
