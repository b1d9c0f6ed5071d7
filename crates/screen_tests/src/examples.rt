use fault::Refusal;
use screen::{Corner, Rect, Sides, copy, fill, overlapping, put};
use std::test::Fail;

fn rect(x: u16, y: u16, w: u16, h: u16) -> Rect {
    Rect { x, y, w, h }
}

fn sides(width: u16, height: u16) -> Sides {
    Sides { width, height }
}

fn corner(x: u16, y: u16) -> Corner {
    Corner { x, y }
}

#[test]
fn a_rectangle_is_cut_at_the_right_and_the_bottom(rt: HostRuntime) {
    assert!(rt; rect(250, 3, 10, 2).cut(sides(256, 4)) == rect(250, 3, 6, 1));
    assert!(rt; rect(250, 3, 6, 1).cut(sides(256, 4)) == rect(250, 3, 6, 1));
    assert!(rt; rect(256, 0, 1, 1).cut(sides(256, 4)) == Rect::NONE);
    assert!(rt; rect(7, 7, 0, 9).cut(sides(256, 256)) == Rect::NONE);
}

#[test]
fn a_sum_past_65535_does_not_go_round(rt: HostRuntime) {
    let far = rect(65535, 0, 2, 1);
    assert!(rt; far.has(65535, 0));
    assert!(rt; !far.has(0, 0));
    assert!(rt; !far.inside(sides(65535, 1)));
    assert!(rt; far.cut(sides(65535, 1)) == Rect::NONE);
    assert!(rt; far.cut_to(rect(65534, 0, 9, 9)) == far);
    assert!(rt; far.covering(rect(0, 0, 1, 1)).is_none());
}

#[test]
fn a_covering_rectangle_leaves_empty_ones_out(rt: HostRuntime) -> Result<(), Fail> {
    let Some(both) = rect(4, 1, 2, 2).covering(rect(1, 2, 1, 5)) else {
        return Err(Fail::new("no rectangle over both"));
    };
    assert!(rt; both == rect(1, 1, 5, 6));
    let Some(one) = rect(9, 9, 0, 9).covering(both) else {
        return Err(Fail::new("no rectangle over one"));
    };
    assert!(rt; one == both);
    Ok(())
}

#[test]
fn fill_stays_on_the_screen(rt: HostRuntime) {
    let mut cells = [0; 8];
    assert!(rt; fill(&mut cells, sides(3, 2), rect(1, 1, 9, 9), 7).is_ok());
    assert!(rt; cells == [0, 0, 0, 0, 7, 7, 0, 0]);
    assert_eq!(rt;
        fill(&mut cells, sides(3, 3), rect(0, 0, 1, 1), 5),
        Err(Refusal::Size)
    );
    assert!(rt; cells == [0, 0, 0, 0, 7, 7, 0, 0]);
}

#[test]
fn put_takes_the_rows_of_the_block(rt: HostRuntime) {
    let mut cells = [0; 7];
    let block = [1, 2, 3, 4, 5, 6];
    assert!(rt; put(&mut cells, sides(3, 2), rect(1, 0, 3, 2), &block).is_ok());
    assert!(rt; cells == [0, 1, 2, 0, 4, 5, 0]);
    assert_eq!(rt;
        put(&mut cells, sides(3, 2), rect(0, 0, 2, 2), &block),
        Err(Refusal::Block)
    );
    assert!(rt; cells == [0, 1, 2, 0, 4, 5, 0]);
}

#[test]
fn copies_go_over_themselves_to_each_side(rt: HostRuntime) {
    let mut right = [1, 2, 3, 4];
    let mut left = [1, 2, 3, 4];
    assert!(rt; copy(&mut right, sides(4, 1), rect(0, 0, 4, 1), corner(1, 0)).is_ok());
    assert!(rt; copy(&mut left, sides(4, 1), rect(1, 0, 3, 1), corner(0, 0)).is_ok());
    assert!(rt; right == [1, 1, 2, 3]);
    assert!(rt; left == [2, 3, 4, 4]);
    assert!(rt; overlapping() == right);
}

#[test]
fn copies_go_over_themselves_down_and_up(rt: HostRuntime) {
    let mut down = [1, 2, 3, 4, 5, 6, 9];
    let mut up = [1, 2, 3, 4, 5, 6, 9];
    assert!(rt; copy(&mut down, sides(2, 3), rect(0, 0, 2, 2), corner(0, 1)).is_ok());
    assert!(rt; copy(&mut up, sides(2, 3), rect(0, 1, 2, 2), corner(0, 0)).is_ok());
    assert!(rt; down == [1, 2, 1, 2, 3, 4, 9]);
    assert!(rt; up == [3, 4, 5, 6, 5, 6, 9]);
    assert_eq!(rt;
        copy(&mut up, sides(2, 3), rect(1, 0, 2, 1), corner(0, 0)),
        Err(Refusal::Source)
    );
}
