// Runs over a file that answers each command, by the numbers that the description of them gives.

use df_workload::{Asked, Generator, Outcome};

// Tells the generator that its command was carried out, where it is within its rounds.
fn accept(generator: &mut Generator) {
    if !generator.is_ending() {
        generator.hear(Outcome::Accepted);
    }
}

// The length of a body, and one of its bytes with its place.
const BODIES: [(usize, usize, u8); 3] = [(649, 0, 27), (649, 648, 184), (933, 932, 145)];

#[test]
fn the_first_bodies_of_seed_42_are_those_of_its_draws(rt: HostRuntime) {
    let mut generator = Generator::new(42, 3, 4);
    for (length, place, byte) in &BODIES {
        let body = generator.body();
        assert!(rt;
            body.len() == *length && body.get(*place) == Some(byte),
            "byte {byte}"
        );
        accept(&mut generator);
    }
    let counts = generator.counts();
    assert!(rt; counts.appended == 3 && counts.bytes == 2231);
}

const WANTED: [Asked; 6] = [
    Asked::Append {
        client: 1,
        request: 1,
    },
    Asked::Append {
        client: 2,
        request: 1,
    },
    Asked::Reply { op: 1 },
    Asked::Reply { op: 2 },
    Asked::Append {
        client: 1,
        request: 2,
    },
    Asked::Reply { op: 3 },
];

#[test]
fn three_rounds_of_two_clients_are_replied_to_in_order(rt: HostRuntime) {
    let mut generator = Generator::new(42, 3, 2);
    for asked in &WANTED {
        assert!(rt; generator.asks() == Some(*asked));
        accept(&mut generator);
    }
    assert!(rt; generator.asks() == None);
    assert!(rt; generator.counts().replied == 3);
}
