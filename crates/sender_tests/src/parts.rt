//! The parts of a code, for somebody who was handed one: it can be passed on and used again, and
//! its numbers are within their limits, with no test and no proof. That these functions are proved
//! is what is tried; what they answer is compared too.
use codes::back_diagonal::BackDiagonal;
use codes::code::Code;
use codes::main_diagonal::MainDiagonal;
use codes::overlay::Overlay;
use codes::spread::Spread;
use codes::step::Step;
use table::CoefficientTable;
use word::Bit;

fn main_itself(part: MainDiagonal) -> MainDiagonal {
    part
}

fn main_twice(part: MainDiagonal) -> (MainDiagonal, MainDiagonal) {
    (main_itself(part), main_itself(part))
}

fn back_itself(part: BackDiagonal) -> BackDiagonal {
    part
}

fn back_twice(part: BackDiagonal) -> (BackDiagonal, BackDiagonal) {
    (back_itself(part), back_itself(part))
}

fn over_itself(
    part: MainDiagonal,
    step: Step,
) -> Overlay<Spread<MainDiagonal>, Spread<MainDiagonal>> {
    Overlay {
        first: Spread { code: part, step },
        second: Spread { code: part, step },
        delay: 1,
    }
}

fn at_width(part: &MainDiagonal, eight: &[u32; 8]) -> u32 {
    eight[Code::<Bit>::sources(part) as usize - 1]
}

fn at_back_width(part: &BackDiagonal, eight: &[u32; 8]) -> u32 {
    eight[Code::<Bit>::sources(part) as usize - 1]
}

fn at_numbers(table: &CoefficientTable, all: &[[[u32; 64]; 4]; 8]) -> u32 {
    let parities = &all[table.sources() as usize - 1];
    parities[table.parities() as usize - 1][table.memory() as usize]
}

#[test]
fn used_again(rt: HostRuntime) {
    let part = MainDiagonal::new(3).unwrap();
    let (one, other) = main_twice(part);
    assert_eq!(rt; Code::<Bit>::memory(&one), 3);
    assert_eq!(rt; Code::<Bit>::memory(&other), 3);
    let step = Step::new(5).unwrap();
    let (one, other) = back_twice(BackDiagonal::new(4, step).unwrap());
    assert_eq!(rt; Code::<Bit>::memory(&one), 20);
    assert_eq!(rt; Code::<Bit>::memory(&other), 20);
    assert_eq!(rt; Code::<Bit>::memory(&over_itself(part, step)), 16);
}

#[test]
fn within_limits(rt: HostRuntime) {
    let eight = [1, 2, 3, 4, 5, 6, 7, 8];
    assert_eq!(rt; at_width(&MainDiagonal::new(8).unwrap(), &eight), 8);
    let step = Step::new(5).unwrap();
    assert_eq!(rt;
        at_back_width(&BackDiagonal::new(1, step).unwrap(), &eight),
        1
    );
    let mut all = [[[0; 64]; 4]; 8];
    all[7][3][63] = 7;
    let Ok(bytes) = vec![in rt.alloc(); 0_u8; 2048] else {
        panic!(rt; "no memory");
    };
    let Ok(table) = CoefficientTable::new(8, 4, 63, bytes) else {
        panic!(rt; "refused");
    };
    assert_eq!(rt; at_numbers(&table, &all), 7);
}
