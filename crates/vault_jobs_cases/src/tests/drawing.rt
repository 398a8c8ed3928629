//! Drawings of one generator, by how often digits come.
use rand::SeedableRng;
use rand::rngs::StdRng;
use vault_listen::live::drawn;
use vault_pan::draw::Digits;

/// How many digits of a drawing are the ones before them.
fn repeats(digits: &Digits) -> usize {
    let values = digits.values();
    let later = values.iter().skip(1);
    values
        .iter()
        .zip(later)
        .filter(|(one, next)| one == next)
        .count()
}

#[test]
fn each_digit_comes_at_each_place_and_few_come_twice(rt: HostRuntime) {
    let mut generator = StdRng::seed_from_u64(7);
    let mut seen = [0u16; 300];
    let mut repeated = 0usize;
    for _ in 0..200 {
        let digits = drawn(&mut generator);
        for (came, digit) in seen.iter_mut().zip(digits.values()) {
            *came |= 1u16.checked_shl(u32::from(*digit)).unwrap_or(0);
        }
        repeated = repeated.saturating_add(repeats(&digits));
    }
    assert!(rt; seen.iter().all(|came| *came == 0b11_1111_1111));
    assert!(rt; 5000 < repeated && repeated < 7000);
}
