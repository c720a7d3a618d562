use refusal::{Refusal, first};

#[test]
fn the_first_check_that_fails(rt: HostRuntime) {
    assert_eq!(rt; first::<Refusal>(&[]), Ok(()));
    assert_eq!(rt;
        first(&[(false, Refusal::TooDeep), (false, Refusal::BadValue)]),
        Ok(())
    );
    assert_eq!(rt;
        first(&[
            (false, Refusal::OutOfTurn),
            (true, Refusal::TooDeep),
            (true, Refusal::BadValue),
        ]),
        Err(Refusal::TooDeep)
    );
}
