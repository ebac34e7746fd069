use pipe_program::{ParseStop, numbered_lines, parse, text_laws};
use std::alloc::{AllocError, Global};
use std::test::Fail;

// 100 times the line, and the kind of its refusal; 0 where the text reads, and 50 for want of memory.
fn refusal(alloc: Global, text: &[u8]) -> u32 {
    text_laws();
    if text.len() >= 65536 {
        return 51;
    }
    match parse(alloc, text) {
        Ok(_) => 0,
        Err(ParseStop::Refused(refusal)) => {
            refusal
                .line
                .saturating_mul(100)
                .saturating_add(u32::from(refusal.kind))
        }
        Err(ParseStop::Memory) => 50,
    }
}

#[test]
fn texts_that_read(rt: HostRuntime) {
    let rows: [&[u8]; 14] = [
        b"from range 0 until 10 by 1\nfilter x % 3 = 0\nprint\n",
        b"from range 0 until 3\nsize",
        b"# comment\r\n\r\nfrom range 10 until 0 by -4\r\npar vector\r\n  take -1\nprint",
        b"from csv id:int, region:text\nmap region = region ++ \"!\", n = len(region)\nfilter n > 2 and not region = \"a\"\nsum n",
        b"from csv k:text, v:int\ntoMap k -> v",
        b"from range -9223372036854775808 until 9223372036854775807 by 1\nsize",
        b"from range 0 until 5\nzip range 10 until 13 by 1 as k\nzipWithIndex as i\nscan sum k + i as s\ndistinct\nreverse\nmax s",
        b"from range 0 until 5\nmap k = x % 3 * 4294967297, v = x\ngroupBy k as k : count as n, mkString v \"-\" as vs\ntoSet vs",
        b"from csv t:text\nflatMap split t \" \"\ncollect u = t when len(t) >= 1\nslice -2 until 2\nmkString u \"+\"",
        b"from range 0 until 5\nmap toInt = x\nsum toInt",
        b"pipeline 2\nfrom csv t:text\nmap n = toInt(t) / len(t), `toInt` = 1\ngroupBy n as a, n % 2 as b : min n as m, max n as w\nprint",
        b"from range 0 until 1\nmap filter = x, `a b` = 2\nsegmentLength filter = `a b` from -1",
        b"from range 0 until 1\nfilter ((x = 1) or x < 2) and x != 3\nsplitAt 3",
        b"from range 0 until 1\nfilter x / -1 = 0\nindexWhere x <= 0",
    ];
    for text in rows {
        assert_eq!(rt; refusal(rt.alloc(), text), 0);
    }
}

#[test]
fn first_kinds(rt: HostRuntime) {
    let rows: [(&[u8], u32); 24] = [
        (b"", 113),
        (b"from range 0 until 3\nfilter x > 1", 313),
        (b"from range 0 until 3\n# nothing\n\n", 413),
        (b"# \xff", 101),
        (b"from range 0 until 3\nsorted \xc3(", 201),
        (b"from range 0 until 3\n\xff !", 201),
        (b"from range 0 until 3\nfilter x ! 1\nsize", 202),
        (b"sorted !", 102),
        (b"from csv `a", 102),
        (b"sorted x", 104),
        (b"from range 0 until 3\nsorted x\nsize", 204),
        (b"size", 104),
        (b"par array", 104),
        (b"from range 0 until 3\nfrom range 0 until 3", 204),
        (b"from range 0 until 3\nsize\nsize", 304),
        (b"from range 0 until 3\nfilter x > 1\npar array", 304),
        (b"from range 0 until 3\npipeline 2", 204),
        (b"pipeline 2\npipeline 2", 204),
        (b"pipeline", 105),
        (b"pipeline 3", 105),
        (b"from range 0 until 3\nfilter x >\nsize", 205),
        (b"from range 0 until 3\nfilter x / x = 1", 205),
        (
            b"from range 0 until 3\ngroupBy x as a, x as b : count as n",
            205,
        ),
        (
            b"from range 0 until 3\ntake 9223372036854775808\nfilter x >",
            206,
        ),
    ];
    for (text, wanted) in rows {
        assert_eq!(rt; refusal(rt.alloc(), text), wanted);
    }
}

#[test]
fn later_kinds(rt: HostRuntime) {
    let rows: [(&[u8], u32); 26] = [
        (b"from range 0 until -9223372036854775809", 106),
        (
            b"from range 0 until 3\nfilter x / 99999999999999999999 = y",
            206,
        ),
        (b"from range 0 until 99999999999999999999 by", 105),
        (b"from range 0 until 3\nfilter y > 1\nsize", 208),
        (b"from csv a:int, a:text", 108),
        (b"from range 0 until 3\nmap a = x, a = x", 208),
        (b"from range 0 until 3\nzipWithIndex as x", 208),
        (b"from range 0 until 3\ngroupBy x as a : count as a", 208),
        (b"from csv t:text\nflatMap split u \"\"", 208),
        (b"from range 0 until 3\nfilter y + 1", 208),
        (b"from range 0 until 3\nfilter x + 1\nsize", 209),
        (b"from range 0 until 3\nflatMap split x \"\"", 209),
        (b"from csv t:text\nfilter t ++ t = t", 209),
        (b"from csv t:text\nfilter len(t ++ t) = 1", 209),
        (b"from csv t:text\nmap n = t / 0", 209),
        (b"from csv t:text\nmap n = t = t", 209),
        (b"from csv t:text\nsum t", 209),
        (b"from range 0 until 10 by 0\nsize", 110),
        (b"from range 0 until 3\nfilter x % 0 = 1", 210),
        (b"from range 0 until 3\nmap a = (x / -0)", 210),
        (b"from csv t:text\nflatMap split t \"\"", 210),
        (b"from range 0 until 3\nzip range 0 until 1 by 0 as y", 210),
        (b"pipeline 2\nfrom range 0 until 3\nmap a = x / 0", 310),
        (b"pipeline 2\nfrom csv t:text\nmap a = toInt(1)", 309),
        (b"pipeline 2\nfrom range 0 until 3\nmap toInt = x", 305),
        (b"from csv t:text\nmap a = toInt(t)", 205),
    ];
    for (text, wanted) in rows {
        assert_eq!(rt; refusal(rt.alloc(), text), wanted);
    }
}

// A text of a head, a piece so many times, and a tail.
fn repeated(
    alloc: Global,
    head: &[u8],
    piece: &[u8],
    times: usize,
    tail: &[u8],
) -> Result<Vec<u8>, AllocError> {
    let mut text = Vec::from_slice(alloc, head)?;
    for _ in 0..times {
        text.extend_from_slice(piece)?;
    }
    text.extend_from_slice(tail)?;
    Ok(text)
}

#[test]
fn bounds(rt: HostRuntime) -> Result<(), AllocError> {
    let range: &[u8] = b"from range 0 until 3\n";
    let rows: [(&[u8], &[u8], usize, &[u8], u32); 16] = [
        (b"", b"(", 512, b"", 104),
        (b"", b"(", 513, b"", 103),
        (b"sorted ", b"x ", 512, b"", 103),
        (b"", b"! ", 600, b"", 102),
        (b"filter ", b"(", 511, b"", 205),
        (b"filter ", b"not ", 62, b"x = 1\nsize", 0),
        (b"filter ", b"not ", 63, b"x = 1\nsize", 207),
        (b"filter ", b"(", 63, b"y = 1\nsize", 205),
        (b"map a = ", b"(x) + ", 63, b"y\nsize", 207),
        (b"map a = ", b"x + ", 62, b"x + 0\nsize", 0),
        (b"filter ", b"x = 1 and ", 61, b"x = 1 and y = 1\nsize", 208),
        (b"filter ", b"not ", 63, b"y = 1\nsize", 207),
        (b"", b"distinct\n", 62, b"size", 0),
        (b"", b"distinct\n", 63, b"size", 6512),
        (b"", b"reverse\n", 64, b"filter y = 1", 6512),
        (b"", b"reverse\n", 63, b"filter y = 1", 6508),
    ];
    for (head, piece, times, tail, wanted) in rows {
        let mut text = Vec::from_slice(rt.alloc(), range)?;
        if wanted >= 200 || wanted == 0 {
            text.extend_from_slice(&repeated(rt.alloc(), head, piece, times, tail)?)?;
        } else {
            text = repeated(rt.alloc(), head, piece, times, tail)?;
        }
        assert_eq!(rt; refusal(rt.alloc(), &text), wanted);
    }
    Ok(())
}

// `name` and a number of two digits.
fn numbered(text: &mut Vec<u8>, name: &[u8], n: u8, behind: &[u8]) -> Result<(), AllocError> {
    text.extend_from_slice(name)?;
    text.push(b'0' + n / 10 % 10)?;
    text.push(b'0' + n % 10)?;
    text.extend_from_slice(behind)?;
    Ok(())
}

// The refusal of a source of so many columns, and of what comes after it.
fn wide(alloc: Global, count: u8, tail: &[u8]) -> Result<u32, AllocError> {
    let mut text = Vec::from_slice(alloc, b"from csv ")?;
    for n in 1..count {
        numbered(&mut text, b"c", n, b":int,")?;
    }
    numbered(&mut text, b"d", count, b":int\n")?;
    text.extend_from_slice(tail)?;
    Ok(refusal(alloc, &text))
}

#[test]
fn columns(rt: HostRuntime) -> Result<(), AllocError> {
    assert_eq!(rt; wide(rt.alloc(), 64, b"print")?, 0);
    assert_eq!(rt; wide(rt.alloc(), 65, b"print")?, 111);
    assert_eq!(rt; wide(rt.alloc(), 64, b"zipWithIndex as i\nprint")?, 211);
    assert_eq!(rt; wide(rt.alloc(), 63, b"zipWithIndex as i\nprint")?, 0);
    assert_eq!(rt;
        wide(rt.alloc(), 64, b"zip range 0 until 1 by 1 as i\nprint")?,
        211
    );
    assert_eq!(rt;
        wide(rt.alloc(), 64, b"zip range 0 until 1 by 0 as i\nprint")?,
        210
    );
    assert_eq!(rt; wide(rt.alloc(), 64, b"zipWithIndex as c01\nprint")?, 208);
    Ok(())
}

// The numbers of the lines that say something.
fn places(alloc: Global, text: &[u8]) -> Result<Vec<u32>, Fail> {
    text_laws();
    if text.len() >= 65536 {
        return Err("long".into());
    }
    let lines = numbered_lines(alloc, text).map_err(|_| "refused")?;
    let mut places = Vec::new(alloc);
    for line in lines.iter() {
        places.push(line.at)?;
    }
    Ok(places)
}

#[test]
fn numbers_of_lines(rt: HostRuntime) -> Result<(), Fail> {
    let text: &[u8] = b"# a range\n\nfrom range 0 until 3\npar vector\n \t\ntake 1\nsize\n";
    let found = places(rt.alloc(), text)?;
    assert_eq!(rt; found.as_slice(), [3, 4, 6, 7].as_slice());
    Ok(())
}
