// Streams of requests, each read whole and in small reads. What is wanted was computed by another program.
ghost use Rattle.std.specs.Prelude.{◌≡◌, ◌≤◌, true, false, IfOk, IsSome, All};
ghost use Rattle.arti_wire.specs.Framing.{IsInBody};

use arti_ground::MemorySource;
use arti_rows::{Digests, Limits};
use arti_wire::{NextHead, Phase, Piece, Request, Why, Wire, WireFault, response_head};
use std::alloc::{AllocError, Global};
use std::test::Fail;

// Cases with `^` between them. A case has its name, what is read of the stream, and then the stream: texts, each
// with how many times it stands, all with `~` between them.
fn cases() -> &'static str {
    "nothing~End^\
        line ends alone~End~\r\n~3^\
        1024 line ends~GET 2 0 - more ; End~\r\n~512~GET /a HTTP/1.1\r\n\r\n~1^\
        1025 line ends~BadHead~\n~1025~GET /a HTTP/1.1\r\n\r\n~1^\
        1025 line ends and no more~BadHead~\r~1025^\
        line ends between~GET 2 0 - more ; GET 2 0 - more ; BadHead~GET /a HTTP/1.1\r\n\r\n\r\n\n\r~2~\n~1024^\
        64 fields~GET 2 64 a=b more ; End~GET /a HTTP/1.1\r\n~1~a: b\r\n~64~\r\n~1^\
        65 fields~HeadTooLarge~GET /a HTTP/1.1\r\n~1~a: b\r\n~65~\r\n~1^\
        64 lines and no head~BadHead~GET /a HTTP/1.1\r\n~1~a b\r\n~64~\r\n~1^\
        a head of 32768 bytes~GET 32751 0 - more ; End~GET /~1~a~32750~ HTTP/1.1\r\n\r\n~1^\
        a head of 32769 bytes~HeadTooLarge~GET /~1~a~32751~ HTTP/1.1\r\n\r\n~1^\
        32767 bytes without an empty line~Cut~x~32767^\
        32768 bytes without an empty line~HeadTooLarge~x~32768^\
        an empty line at the end of the room~BadHead~x~32766~\n\n~1^\
        an empty line past the room~HeadTooLarge~x~32766~\r\n\r\n~1^\
        CR alone~Cut~GET /a HTTP/1.1\rHost: x\r\r~1^\
        CR alone, then an empty line~BadHead~GET /a HTTP/1.1\rHost: x\r\n\r\n~1^\
        LF alone~GET 2 1 Host=x more ; End~GET /a HTTP/1.1\nHost: x\n\n~1^\
        CR CR LF~BadHead~GET /a HTTP/1.1\r\n\r\r\n\n~1^\
        no head~BadHead~x\r\n\r\n~1^\
        no head, cut~Cut~x\r\n~1^\
        cut in the line end~Cut~x\r\n\r~1^\
        a space before the name~BadHead~GET /a HTTP/1.1\r\n a: b\r\n\r\n~1^\
        HTTP/2.0~BadHead~GET /a HTTP/2.0\r\n\r\n~1^\
        a length~GET 2 1 Content-Length=3 more abc; GET 2 1 Content-Length=3 more abc; End~GET /a HTTP/1.1\r\nContent-Length: 3\r\n\r\nabc~2^\
        a length in small letters~GET 2 1 content-length=3 more abc; End~GET /a HTTP/1.1\r\ncontent-length:\t3 \r\n\r\nabc~1^\
        a short body~Cut~GET /a HTTP/1.1\r\nContent-Length: 3\r\n\r\nab~1^\
        two equal lengths~GET 2 2 Content-Length=2 more ab; End~GET /a HTTP/1.1\r\nContent-Length: 2\r\n~1~CONTENT-LENGTH: 2\r\n\r\nab~1^\
        two lengths that differ~BadLength~GET /a HTTP/1.1\r\nContent-Length: 2\r\nContent-Length: 02\r\n\r\nab~1^\
        a length with x~BadLength~GET /a HTTP/1.1\r\nContent-Length: 3x\r\n\r\nabc~1^\
        a length with a plus~BadLength~GET /a HTTP/1.1\r\nContent-Length: +3\r\n\r\nabc~1^\
        an empty length~BadLength~GET /a HTTP/1.1\r\nContent-Length:\r\n\r\n~1^\
        18 digits~GET 2 1 Content-Length=000000000000000003 more abc; End~GET /a HTTP/1.1\r\nContent-Length: 000000000000000003\r\n\r\nabc~1^\
        19 digits~BadLength~GET /a HTTP/1.1\r\nContent-Length: 0000000000000000003\r\n\r\nabc~1^\
        the largest length~Cut~GET /a HTTP/1.1\r\nContent-Length: 67108864\r\n\r\nabc~1^\
        too large a length~BodyTooLarge~GET /a HTTP/1.1\r\nContent-Length: 67108865\r\n\r\nabc~1^\
        a length beside a coding~BadLength~GET /a HTTP/1.1\r\nContent-Length: 3\r\nTransfer-Encoding: gzip\r\n\r\nabc~1^\
        a coding~UnknownCoding~GET /a HTTP/1.1\r\ntransfer-encoding: gzip\r\n\r\n~1^\
        close~GET 2 1 Connection=close last ; End~GET /a HTTP/1.1\r\nConnection: close\r\n\r\nrest~1^\
        close among others, with a body~GET 2 3 Connection=keep-alive last a; End~GET /a HTTP/1.1\r\nConnection: keep-alive\r\nconnection: x ,\tCLOSE , y\r\nContent-Length: 1\r\n\r\nab~1^\
        closed~GET 2 1 Connection=closed, not close more ; End~GET /a HTTP/1.1\r\nConnection: closed, not close\r\n\r\n~1"
}

// The stream of a case.
fn stream_of(alloc: Global, case: &str) -> Result<Vec<u8>, Fail> {
    let mut stream = Vec::new(alloc);
    let mut text = None;
    for part in case.split('~').skip(2) {
        match text {
            None => text = Some(part),
            Some(piece) => {
                append(&mut stream, piece, part.parse::<u32>()?)?;
                text = None;
            }
        }
    }
    Ok(stream)
}

// Appends a text so many times.
fn append(stream: &mut Vec<u8>, text: &str, times: u32) -> Result<(), AllocError> {
    for _ in 0..times {
        stream.extend_from_slice(text.as_bytes())?;
    }
    Ok(())
}

fn name_of(why: Why) -> &'static str {
    match why {
        Why::BadHead => "BadHead",
        Why::HeadTooLarge => "HeadTooLarge",
        Why::BadLength => "BadLength",
        Why::UnknownCoding => "UnknownCoding",
        Why::BodyTooLarge => "BodyTooLarge",
    }
}

// Reads a body to its end, in pieces of at most five bytes. None: it was cut.
fn read_body(
    alloc: Global,
    wire: &mut Wire,
    source: &mut MemorySource,
) -> Result<Option<String>, Fail>
    requires { IsInBody wire.old.phase }
    ensures { IfOk result (λ body. IsSome body → wire.new.phase ≡ Phase.Between) }
{
    let mut body = String::new(alloc);
    let mut buf = [0u8; 5];
    'pieces: for _ in 0..u64::MAX {
        match wire.next_piece(source, &mut buf)? {
            Piece::Some(n) => body.push_str(str::from_utf8(&buf[..n])?)?,
            Piece::Last => return Ok(Some(body)),
            Piece::Cut | Piece::Bad(_) => return Ok(None),
        }
    }
    Ok(None)
}

// The first field of a request.
fn first_field(alloc: Global, request: &Request) -> Result<String, Fail> {
    let Some(field) = request.fields.as_slice().first() else {
        return Ok(String::from_str(alloc, "-")?);
    };
    let name = field.0.as_str();
    let value = str::from_utf8(field.1.as_slice())?;
    Ok(format!(in alloc; "{name}={value}")?)
}

// A request in one line.
fn show(alloc: Global, request: &Request, body: &str) -> Result<String, Fail> {
    let method = request.method.as_str();
    let target = request.target.as_str().len();
    let fields = request.fields.as_slice().len();
    let first = first_field(alloc, request)?;
    let last = if request.last { "last" } else { "more" };
    Ok(format!(in alloc; "{method} {target} {fields} {first} {last} {body}; ")?)
}

// Reads the body of a request, and says whether another may follow.
fn read_request(
    alloc: Global,
    request: &Request,
    wire: &mut Wire,
    source: &mut MemorySource,
    shown: &mut String,
) -> Result<bool, Fail>
    requires { IsInBody wire.old.phase }
    ensures { IfOk result (λ more. more ≡ true → wire.new.phase ≡ Phase.Between) }
{
    let Some(body) = read_body(alloc, wire, source)? else {
        shown.push_str("Cut")?;
        return Ok(false);
    };
    shown.push_str(show(alloc, request, body.as_str())?.as_str())?;
    if request.last {
        shown.push_str("End")?;
        return Ok(false);
    }
    Ok(true)
}

// Shows how a stream ended.
fn ended(shown: &mut String, ending: &str) -> Result<bool, Fail>
    ensures { IfOk result (λ more. more ≡ false) }
{
    shown.push_str(ending)?;
    Ok(false)
}

// Reads what comes next, and says whether more may follow.
fn read_next(
    alloc: Global,
    wire: &mut Wire,
    source: &mut MemorySource,
    shown: &mut String,
) -> Result<bool, Fail>
    requires { wire.old.phase ≡ Phase.Between }
    ensures { IfOk result (λ more. more ≡ true → wire.new.phase ≡ Phase.Between) }
{
    match wire.next_head(alloc, source, &Limits::standard()) {
        Ok(NextHead::Head(request)) => read_request(alloc, &request, wire, source, shown),
        Ok(NextHead::End) => ended(shown, "End"),
        Ok(NextHead::Cut) => ended(shown, "Cut"),
        Ok(NextHead::Bad(why)) => ended(shown, name_of(why)),
        Err(WireFault::Source) => ended(shown, "Source"),
        Err(WireFault::Memory) => ended(shown, "Memory"),
    }
}

// All requests of a source, and its ending.
fn read_all(alloc: Global, source: &mut MemorySource) -> Result<String, Fail> {
    let mut shown = String::new(alloc);
    let mut wire = Wire::new(alloc)?;
    'heads: for _ in 0..u64::MAX {
        if !read_next(alloc, &mut wire, source, &mut shown)? {
            return Ok(shown);
        }
    }
    Ok(shown)
}

// So many reads of one size.
fn sizes_of(alloc: Global, size: usize, count: usize) -> Result<Vec<usize>, AllocError>
    requires { 1 ≤ size }
    ensures { IfOk result (λ sizes. All (λ n. 1 ≤ n) sizes.items) }
{
    vec![in alloc; size; count]
}

// What is read of bytes, in reads of at most so many; 0 is for reads of any size.
fn read_in(alloc: Global, stream: Vec<u8>, size: usize) -> Result<String, Fail> {
    let sizes = if size == 0 {
        Vec::new(alloc)
    } else {
        sizes_of(alloc, size, stream.len())?
    };
    let mut source = MemorySource::new(stream, sizes, Vec::new(alloc));
    read_all(alloc, &mut source)
}

// Whether a case gives what is wanted, in reads of that size.
fn gives(alloc: Global, case: &str, size: usize) -> Result<bool, Fail> {
    let stream = stream_of(alloc, case)?;
    let shown = read_in(alloc, stream, size)?;
    Ok(case.split('~').nth(1) == Some(shown.as_str()))
}

#[test]
fn streams(rt: HostRuntime) -> Result<(), Fail> {
    for case in cases().split('^') {
        for size in 0..4usize {
            let is_wanted = gives(rt.alloc(), case, size)?;
            assert!(rt; is_wanted, "{case} in reads of {size}");
        }
    }
    Ok(())
}

// Two requests that come whole in the first read, and a second read that fails.
fn read_with_fault(alloc: Global, stream: &str) -> Result<String, Fail> {
    let mut failing = Vec::new(alloc);
    failing.push(1u64)?;
    let bytes = stream.as_bytes().to_vec(alloc)?;
    let mut source = MemorySource::new(bytes, Vec::new(alloc), failing);
    read_all(alloc, &mut source)
}

fn two_requests() -> &'static str {
    "PUT /a HTTP/1.1\r\nContent-Length: 3\r\n\r\nabcGET /b HTTP/1.1\r\n\r\n"
}

fn two_and_a_fault() -> &'static str {
    "PUT 2 1 Content-Length=3 more abc; GET 2 0 - more ; Source"
}

#[test]
fn what_is_ahead_needs_no_read(rt: HostRuntime) -> Result<(), Fail> {
    let shown = read_with_fault(rt.alloc(), two_requests())?;
    assert_eq!(rt; shown.as_str(), two_and_a_fault());
    Ok(())
}

fn no_content() -> &'static str {
    "HTTP/1.1 204 No Content\r\n\r\n"
}

fn refused() -> &'static str {
    "HTTP/1.1 413 Payload Too Large\r\nContent-Type: application/json\r\nContent-Length: 68\r\n\r\n"
}

fn content() -> &'static str {
    "HTTP/1.1 200 OK\r\nContent-Type: application/octet-stream\r\n\
    X-Checksum-Md5: 01010101010101010101010101010101\r\n\
    X-Checksum-Sha1: abababababababababababababababababababab\r\n\
    X-Checksum-Sha256: ffffffffffffffffffffffffffffffffffffffffffffffffffffffffffffffff\r\n\
    Content-Length: 0\r\n\r\n"
}

#[test]
fn reply_heads(rt: HostRuntime) -> Result<(), Fail> {
    let digests = Digests {
        md5: [1; 16],
        sha1: [0xab; 20],
        sha256: [0xff; 32],
    };
    let alloc = rt.alloc();
    let head = response_head(alloc, 204, "text/plain", None, 7)?;
    assert_eq!(rt; str::from_utf8(&head)?, no_content());
    let head = response_head(alloc, 413, "application/json", None, 68)?;
    assert_eq!(rt; str::from_utf8(&head)?, refused());
    let head = response_head(alloc, 200, "application/octet-stream", Some(&digests), 0)?;
    assert_eq!(rt; str::from_utf8(&head)?, content());
    Ok(())
}
