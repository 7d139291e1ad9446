//! Senders that are made, and those that are not.
use crate::zeros::Zeros;
use layout::head::BlockShape;
use sender::sender::Sender;
use word::WordArithmetic;

// What comes of a making: no number, or the one that it is refused with.
const MADE: Option<u8> = None;

const OUTSIDE: Option<u8> = Some(1);

const UNFIT: Option<u8> = Some(2);

// K, P, and what comes of each L of 0, 1, 32 and 33: of two faults L's wins.
#[test]
fn limits(rt: HostRuntime) {
    let cases: [(u32, u32, [Option<u8>; 4]); 36] = [
        (0, 0, [OUTSIDE, UNFIT, UNFIT, OUTSIDE]),
        (0, 1, [OUTSIDE, UNFIT, UNFIT, OUTSIDE]),
        (0, 4, [OUTSIDE, UNFIT, UNFIT, OUTSIDE]),
        (0, 5, [OUTSIDE, UNFIT, UNFIT, OUTSIDE]),
        (0, 8, [OUTSIDE, UNFIT, UNFIT, OUTSIDE]),
        (0, 9, [OUTSIDE, UNFIT, UNFIT, OUTSIDE]),
        (1, 0, [OUTSIDE, UNFIT, UNFIT, OUTSIDE]),
        (1, 1, [OUTSIDE, MADE, MADE, OUTSIDE]),
        (1, 4, [OUTSIDE, MADE, MADE, OUTSIDE]),
        (1, 5, [OUTSIDE, UNFIT, UNFIT, OUTSIDE]),
        (1, 8, [OUTSIDE, UNFIT, UNFIT, OUTSIDE]),
        (1, 9, [OUTSIDE, UNFIT, UNFIT, OUTSIDE]),
        (4, 0, [OUTSIDE, UNFIT, UNFIT, OUTSIDE]),
        (4, 1, [OUTSIDE, MADE, MADE, OUTSIDE]),
        (4, 4, [OUTSIDE, MADE, MADE, OUTSIDE]),
        (4, 5, [OUTSIDE, UNFIT, UNFIT, OUTSIDE]),
        (4, 8, [OUTSIDE, UNFIT, UNFIT, OUTSIDE]),
        (4, 9, [OUTSIDE, UNFIT, UNFIT, OUTSIDE]),
        (5, 0, [OUTSIDE, UNFIT, UNFIT, OUTSIDE]),
        (5, 1, [OUTSIDE, MADE, MADE, OUTSIDE]),
        (5, 4, [OUTSIDE, MADE, MADE, OUTSIDE]),
        (5, 5, [OUTSIDE, UNFIT, UNFIT, OUTSIDE]),
        (5, 8, [OUTSIDE, UNFIT, UNFIT, OUTSIDE]),
        (5, 9, [OUTSIDE, UNFIT, UNFIT, OUTSIDE]),
        (8, 0, [OUTSIDE, UNFIT, UNFIT, OUTSIDE]),
        (8, 1, [OUTSIDE, MADE, MADE, OUTSIDE]),
        (8, 4, [OUTSIDE, MADE, MADE, OUTSIDE]),
        (8, 5, [OUTSIDE, UNFIT, UNFIT, OUTSIDE]),
        (8, 8, [OUTSIDE, UNFIT, UNFIT, OUTSIDE]),
        (8, 9, [OUTSIDE, UNFIT, UNFIT, OUTSIDE]),
        (9, 0, [OUTSIDE, UNFIT, UNFIT, OUTSIDE]),
        (9, 1, [OUTSIDE, UNFIT, UNFIT, OUTSIDE]),
        (9, 4, [OUTSIDE, UNFIT, UNFIT, OUTSIDE]),
        (9, 5, [OUTSIDE, UNFIT, UNFIT, OUTSIDE]),
        (9, 8, [OUTSIDE, UNFIT, UNFIT, OUTSIDE]),
        (9, 9, [OUTSIDE, UNFIT, UNFIT, OUTSIDE]),
    ];
    for (sources, parities, numbers) in cases {
        for (symbols, number) in [0, 1, 32, 33].into_iter().zip(numbers) {
            let code = Zeros {
                sources,
                parities,
                memory: 3,
            };
            match Sender::<WordArithmetic, Zeros>::new(code, symbols) {
                Ok(sender) => {
                    assert_eq!(rt; number, MADE, "K={sources} P={parities} L={symbols}");
                    assert_eq!(rt; sender.next_slot(), 0);
                    assert!(rt;
                        sender.block_shape()
                            == BlockShape {
                                sources,
                                parities,
                                symbols,
                            }
                    );
                }
                Err(why) => {
                    assert_eq!(rt;
                        number,
                        Some(why.number()),
                        "K={sources} P={parities} L={symbols}"
                    );
                }
            }
        }
    }
}
