use par_lists::{cut_laws, fold_laws, group_laws, index_of, place_of, scan_laws, search_laws};

#[test]
fn indexes_and_places(rt: HostRuntime) {
    for (n, place) in [(i64::MIN, 0), (-1, 0), (0, 0), (7, 7)] {
        assert_eq!(rt; place_of(n), place);
    }
    assert_eq!(rt;
        (index_of(None), index_of(Some(0)), index_of(Some(9))),
        (-1, 0, 9)
    );
    cut_laws::<u8>();
    fold_laws::<u8, u8>();
    group_laws();
    scan_laws::<u8, u8>();
    search_laws();
}
