use pipe_print::print;
use pipe_program::{parse, text_laws};
use std::alloc::Global;

// The canonical text of a text, and none where it is refused or memory is wanting.
fn printed(alloc: Global, text: &[u8]) -> Vec<u8> {
    text_laws();
    if text.len() < 65536 {
        if let Ok(pipeline) = parse(alloc, text) {
            if let Ok(out) = print(alloc, &pipeline) {
                return out;
            }
        }
    }
    Vec::new(alloc)
}

// Whether a text of three pieces is printed as it is.
fn stays(alloc: Global, head: &[u8], row: &[u8], tail: &[u8]) -> bool {
    let mut text = Vec::new(alloc);
    for piece in [head, row, tail] {
        if text.extend_from_slice(piece).is_err() {
            return false;
        }
    }
    printed(alloc, &text) == text
}

#[test]
fn canonical_texts(rt: HostRuntime) {
    let rows: [(&[u8], &[u8]); 11] = [
        (
            b"# nothing\r\n\r\n from\trange 0   until 10\r\n\r\nsize",
            b"from range 0 until 10 by 1\npar array\nsize\n",
        ),
        (
            b"from range -5 until - 0 by -01\npar vector\ntake - 3\nprint",
            b"from range -5 until 0 by -1\npar vector\ntake -3\nprint\n",
        ),
        (
            b"from range -9223372036854775808 until 9223372036854775807\nfilter -9223372036854775808=x\nsize",
            b"from range -9223372036854775808 until 9223372036854775807 by 1\npar array\nfilter -9223372036854775808 = x\nsize\n",
        ),
        (
            b"from csv `a`:int,`b c`:text,`len`:text,filter:int\nprint",
            b"from csv a : int , `b c` : text , `len` : text , filter : int\npar array\nprint\n",
        ),
        (
            b"from csv t:text\nfilter t=\"a\\\"\\\\\\n\\tb\tc\"\nsize",
            b"from csv t : text\npar array\nfilter t = \"a\\\"\\\\\\n\\tb\\tc\"\nsize\n",
        ),
        (
            b"from csv t:text\nmap `\xc3\xa9`=t++\"\xe2\x82\xac\"\nprint",
            b"from csv t : text\npar array\nmap `\xc3\xa9` = t ++ \"\xe2\x82\xac\"\nprint\n",
        ),
        (
            b"from range 0 until 1\nfilter((x=1)or x<2)and not x!=3\nsize",
            b"from range 0 until 1 by 1\npar array\nfilter ( ( x = 1 ) or x < 2 ) and not x != 3\nsize\n",
        ),
        (
            b"from range 0 until 1\nmap toInt=x-1-2*3%4\nprint",
            b"from range 0 until 1 by 1\npar array\nmap toInt = x - 1 - 2 * 3 % 4\nprint\n",
        ),
        (
            b"pipeline 002\nfrom csv t:text\nmap `toInt`=toInt(t)/len(t)\nprint",
            b"pipeline 2\nfrom csv t : text\npar array\nmap `toInt` = toInt ( t ) / len ( t )\nprint\n",
        ),
        (
            b"pipeline 2\nfrom range 0 until 1\ngroupBy x as a,x%2 as b:count as n,mkString x\"-\"as s\nprint",
            b"pipeline 2\nfrom range 0 until 1 by 1\npar array\ngroupBy x as a , x % 2 as b : count as n , mkString x \"-\" as s\nprint\n",
        ),
        (b"from range 0 until 1", b""),
    ];
    for (text, wanted) in rows {
        assert!(rt; printed(rt.alloc(), text).as_slice() == wanted);
    }
}

// Each last step once, behind a source of a number and a text.
#[test]
fn last_steps(rt: HostRuntime) {
    let rows: [&[u8]; 19] = [
        b"print",
        b"size",
        b"count x > 1",
        b"sum x",
        b"product x + 1",
        b"min x",
        b"max x",
        b"mkString t \", \"",
        b"find x >= 1",
        b"exists x <= 1",
        b"forall t = \"\"",
        b"indexWhere x < 1",
        b"lastIndexWhere x = 1",
        b"segmentLength x = 1 from -1",
        b"span x = 1",
        b"partition x = 1",
        b"splitAt 3",
        b"toSet t",
        b"toMap t -> x",
    ];
    for row in rows {
        assert!(rt;
            stays(
                rt.alloc(),
                b"from csv x : int , t : text\npar array\n",
                row,
                b"\n"
            )
        );
    }
}

// Each step once.
#[test]
fn middle_steps(rt: HostRuntime) {
    let rows: [&[u8]; 17] = [
        b"filter x = 1",
        b"filterNot x = 1",
        b"map a = x , b = t",
        b"collect a = x when t = \"a\"",
        b"flatMap split t \" \"",
        b"take 3",
        b"drop -3",
        b"slice -1 until 4",
        b"takeWhile x = 1",
        b"dropWhile x = 1",
        b"zipWithIndex as i",
        b"zip range 3 until 0 by -1 as k",
        b"reverse",
        b"scan sum x as s",
        b"scan product x as s",
        b"groupBy x as k : count as n , sum x as s , product x as p , min x as m , max x as w , mkString t \"\" as c",
        b"distinct",
    ];
    for row in rows {
        assert!(rt;
            stays(
                rt.alloc(),
                b"from csv x : int , t : text\npar vector\n",
                row,
                b"\nprint\n"
            )
        );
    }
}
