use crate::{Last, Pipeline, parse, print, schema_after, text_laws};
use std::alloc::Global;

// The pipeline that a text reads as; none where it is refused or memory is wanting.
fn parsed(alloc: Global, text: &[u8]) -> Option<Pipeline> {
    text_laws();
    if text.len() >= 65536 {
        return None;
    }
    match parse(alloc, text) {
        Ok(pipeline) => Some(pipeline),
        Err(_) => None,
    }
}

// The canonical text of a text, and none where it is refused or memory is wanting.
fn printed(alloc: Global, text: &[u8]) -> Vec<u8> {
    text_laws();
    if text.len() < 65536 {
        if let Ok(pipeline) = parse(alloc, text) {
            if let Ok(out) = print(alloc, &pipeline) {
                return out;
            }
        }
    }
    Vec::new(alloc)
}

#[test]
fn canonical_texts_read_as_they_were(rt: HostRuntime) {
    let rows: [(&[u8], &[u8]); 5] = [
        (
            b"from range 0 until 10\nsize",
            b"from range 0 until 10 by 1\npar array\nsize\n",
        ),
        (
            b"# sales\nfrom csv id:int,`unit price`:int\npar vector\r\n\r\nmap id=id,all=`unit price`*2\nsum all",
            b"from csv id : int , `unit price` : int\npar vector\nmap id = id , all = `unit price` * 2\nsum all\n",
        ),
        (
            b"from csv t:text\nfilter not t=\"a\tb\"\nmkString t\", \"",
            b"from csv t : text\npar array\nfilter not t = \"a\\tb\"\nmkString t \", \"\n",
        ),
        (
            b"pipeline 2\nfrom csv k:text,v:int\ngroupBy k as k,v%2 as odd:count as n,max v as most\nprint",
            b"pipeline 2\nfrom csv k : text , v : int\npar array\ngroupBy k as k , v % 2 as odd : count as n , max v as most\nprint\n",
        ),
        (
            b"from range 5 until -5 by -01\nzipWithIndex as i\nzip range 0 until 100 by 01 as j\nspan(x+i)>j-3",
            b"from range 5 until -5 by -1\npar array\nzipWithIndex as i\nzip range 0 until 100 by 1 as j\nspan ( x + i ) > j - 3\n",
        ),
    ];
    for (text, wanted) in rows {
        assert!(rt; printed(rt.alloc(), text).as_slice() == wanted);
        assert!(rt; printed(rt.alloc(), wanted).as_slice() == wanted);
    }
}

// How many columns the source of a pipeline has, where its last step is `size`.
fn columns_if_sized(alloc: Global, pipeline: &Pipeline) -> Option<usize> {
    if !matches!(pipeline.last, Last::Size) {
        return None;
    }
    match schema_after(alloc, pipeline, 1) {
        Ok(schema) => Some(schema.columns.len()),
        Err(_) => None,
    }
}

// The same of a text.
fn sized_columns(alloc: Global, text: &[u8]) -> Option<usize> {
    match parsed(alloc, text) {
        Some(pipeline) => columns_if_sized(alloc, &pipeline),
        None => None,
    }
}

#[test]
fn a_caller_looks_at_a_pipeline(rt: HostRuntime) {
    assert!(rt;
        sized_columns(rt.alloc(), b"from csv a:int,b:text,c:int\nmap a=a\nsize") == Some(3)
    );
    assert!(rt; sized_columns(rt.alloc(), b"from csv a:int\nprint") == None);
    assert!(rt; sized_columns(rt.alloc(), b"from csv a:int") == None);
}
