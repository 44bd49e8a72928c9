//! Tests.
ghost use Rattle.std.specs.Prelude.{◌≡◌, ◌<◌, IfSome};
ghost use Rattle.link_params.specs.declared.fields.Mode.TheVariants.{B};

use crate::{
    BadFchk, Config, Law, Link, Mode, Params, Timing, config_octets, first_difference,
    octet_differs, place_after, read_config,
};

/// Two lanes, two converters of sixteen bits, a multiframe of 64 octets.
fn usual() -> Params
    ensures mode { result.mode ≡ B }
    ensures lanes { result.l ≡ 2 }
{
    Params {
        mode: Mode::B,
        l: 2,
        m: 2,
        f: 2,
        s: 1,
        n: 16,
        np: 16,
        cs: 0,
        hd: false,
        scr: true,
        k: 32,
        e: 0,
    }
}

fn usual_timing() -> Timing {
    Timing {
        sysref_period: 128,
        sysref_start: 2,
        tx_skew: 8,
        rx_skew: 120,
        tolerance: 7,
        rbd: 20,
        sync_delay: 5,
        w_lo: 5,
        w_hi: 20,
    }
}

fn usual_link() -> Option<Link>
    ensures { IfSome result (λ k. (k.params.mode ≡ B) × (k.params.l ≡ 2)) }
{
    match usual().check() {
        Ok(shape) => match shape.with(&usual_timing()) {
            Ok(link) => Some(link),
            Err(_) => None,
        },
        Err(_) => None,
    }
}

fn law_of(params: &Params) -> u8 {
    match params.check() {
        Ok(_) => 0,
        Err(Law(law)) => law,
    }
}

fn timing_law_of(params: &Params, timing: &Timing) -> u8 {
    match params.check() {
        Ok(shape) => match shape.with(timing) {
            Ok(_) => 0,
            Err(Law(law)) => law,
        },
        Err(Law(law)) => law,
    }
}

#[test]
fn each_law_of_the_parameters_at_its_edge(rt: HostRuntime) {
    let x = usual();
    let block = Params {
        mode: Mode::CFec,
        l: 1,
        m: 1,
        k: 0,
        e: 1,
        ..x
    };
    let table = [
        (x, 0),
        (Params { l: 0, ..x }, 1),
        (Params { l: 33, ..x }, 1),
        (Params { l: 32, m: 32, ..x }, 0),
        (Params { m: 0, ..x }, 2),
        (Params { m: 257, ..x }, 2),
        (
            Params {
                l: 32,
                m: 256,
                f: 16,
                k: 2,
                ..x
            },
            0,
        ),
        (Params { f: 0, ..x }, 3),
        (Params { f: 257, ..x }, 3),
        (
            Params {
                l: 1,
                m: 128,
                f: 256,
                k: 4,
                ..x
            },
            0,
        ),
        (Params { s: 0, ..x }, 4),
        (Params { s: 33, ..x }, 4),
        (
            Params {
                s: 32,
                f: 64,
                k: 16,
                ..x
            },
            0,
        ),
        (Params { n: 0, ..x }, 5),
        (Params { n: 33, ..x }, 5),
        (
            Params {
                n: 32,
                np: 32,
                f: 4,
                ..x
            },
            0,
        ),
        (Params { np: 0, ..x }, 6),
        (Params { np: 33, ..x }, 6),
        (Params { n: 12, cs: 4, ..x }, 7),
        (Params { n: 13, cs: 3, ..x }, 0),
        (Params { n: 14, cs: 3, ..x }, 8),
        (
            Params {
                l: 2,
                m: 1,
                f: 1,
                ..x
            },
            9,
        ),
        (
            Params {
                l: 2,
                m: 1,
                f: 1,
                hd: true,
                ..x
            },
            0,
        ),
        (Params { f: 3, ..x }, 10),
        (Params { k: 8, ..x }, 11),
        (Params { k: 9, ..x }, 0),
        (Params { k: 33, ..x }, 11),
        (Params { e: 1, ..x }, 11),
        (block, 0),
        (Params { e: 33, ..block }, 11),
        (Params { e: 32, ..block }, 0),
        (Params { k: 1, ..block }, 11),
        (
            Params {
                scr: false,
                ..block
            },
            11,
        ),
        (
            Params {
                m: 3,
                f: 6,
                ..block
            },
            12,
        ),
        (
            Params {
                m: 3,
                f: 6,
                e: 3,
                ..block
            },
            0,
        ),
    ];
    for (at, (params, want)) in table.iter().enumerate() {
        assert_eq!(rt; law_of(params), *want, "at {at}");
    }
}

#[test]
fn each_law_of_the_timing_at_its_edge(rt: HostRuntime) {
    let (x, t) = (usual(), usual_timing());
    let table = [
        (t, 0),
        (
            Timing {
                sysref_period: 96,
                ..t
            },
            13,
        ),
        (
            Timing {
                sysref_period: 0,
                ..t
            },
            13,
        ),
        (
            Timing {
                sysref_period: 1_048_576,
                ..t
            },
            0,
        ),
        (
            Timing {
                sysref_period: 1_048_640,
                ..t
            },
            13,
        ),
        (
            Timing {
                sysref_start: 1,
                ..t
            },
            13,
        ),
        (
            Timing {
                sysref_start: 127,
                ..t
            },
            0,
        ),
        (
            Timing {
                sysref_start: 128,
                ..t
            },
            13,
        ),
        (Timing { tolerance: 8, ..t }, 14),
        (
            Timing {
                tx_skew: 1025,
                tolerance: 0,
                ..t
            },
            14,
        ),
        (
            Timing {
                tx_skew: 1024,
                tolerance: 0,
                ..t
            },
            0,
        ),
        (
            Timing {
                tx_skew: 0,
                tolerance: 1,
                ..t
            },
            14,
        ),
        (
            Timing {
                rbd: 63,
                w_hi: 50,
                w_lo: 40,
                ..t
            },
            0,
        ),
        (Timing { rbd: 64, ..t }, 15),
        (
            Timing {
                sync_delay: 63,
                ..t
            },
            0,
        ),
        (
            Timing {
                sync_delay: 64,
                ..t
            },
            16,
        ),
        (
            Timing {
                w_lo: 20,
                w_hi: 30,
                ..t
            },
            17,
        ),
        (Timing { w_lo: 21, ..t }, 17),
        (
            Timing {
                w_lo: 28,
                w_hi: 63,
                ..t
            },
            0,
        ),
        (
            Timing {
                w_lo: 60,
                w_hi: 64,
                ..t
            },
            17,
        ),
    ];
    for (at, (timing, want)) in table.iter().enumerate() {
        assert_eq!(rt; timing_law_of(&x, timing), *want, "at {at}");
    }
}

#[test]
fn numbers_of_two_links(rt: HostRuntime) {
    let block = Params {
        mode: Mode::CFec,
        l: 1,
        m: 1,
        k: 0,
        e: 1,
        ..usual()
    };
    let timing = Timing {
        sysref_period: 64,
        rx_skew: 8,
        rbd: 10,
        sync_delay: 0,
        w_lo: 1,
        w_hi: 8,
        ..usual_timing()
    };
    let table = [
        (
            usual(),
            usual_timing(),
            [64, 1, 10, 3, 10, 0, 27, 27, 23, 2432],
        ),
        (block, timing, [32, 8, 66, 3, 3, 64, 74, 592, 10, 1856]),
    ];
    for (params, timing, want) in table {
        let Ok(shape) = params.check() else {
            assert!(rt; false, "the parameters are legal");
            return;
        };
        let Ok(link) = shape.with(&timing) else {
            assert!(rt; false, "the timing is legal");
            return;
        };
        assert_eq!(rt; link.shape().params(), params);
        assert_eq!(rt; link.timing(), timing);
        let got = [
            shape.period(),
            shape.octets_per_tick(),
            shape.width(),
            link.tx_edge(),
            link.rx_edge(),
            link.wait(),
            link.lat_ticks(),
            link.latency(),
            link.depth(),
            link.bound(),
        ];
        assert_eq!(rt; got, want);
    }
}

// What lane 1 of the usual link sends.
fn sent() -> Option<[u8; 14]> {
    let link = usual_link()?;
    Some(config_octets(&link, 1))
}

// What the usual octets read as with another octet 13.
fn read_with(fchk: u8) -> Option<Result<Config, BadFchk>> {
    let mut octets = sent()?;
    octets[13] = fchk;
    Some(read_config(&octets))
}

// The first difference from lane 1 where one octet is another.
fn difference_with(index: usize, octet: u8) -> Option<u32>
    requires { index < 13 }
{
    let link = usual_link()?;
    let mut octets = config_octets(&link, 1);
    octets[index] = octet;
    first_difference(&octets, &link, 1)
}

#[test]
fn octets_that_a_lane_sends(rt: HostRuntime) {
    let want = [0, 0, 1, 0x81, 1, 0x1F, 1, 0x0F, 0x2F, 0x20, 0, 0, 0, 0x44];
    assert_eq!(rt; sent(), Some(want));
}

#[test]
fn either_sum_is_read(rt: HostRuntime) {
    let config = Config {
        did: 0,
        adjcnt: 0,
        bid: 0,
        adjdir: 0,
        phadj: 0,
        lid: 1,
        scr: 1,
        l: 1,
        f: 1,
        k: 31,
        m: 1,
        cs: 0,
        n: 15,
        subclass: 1,
        np: 15,
        version: 1,
        s: 0,
        hd: 0,
        cf: 0,
    };
    assert_eq!(rt; read_with(0x44), Some(Ok(config)));
    assert_eq!(rt; read_with(0x01), Some(Ok(config)));
    assert_eq!(rt; read_with(0x02), Some(Err(BadFchk)));
}

#[test]
fn compared_bits_of_octets(rt: HostRuntime) {
    assert_eq!(rt; difference_with(0, 0xFF), None);
    assert_eq!(rt; difference_with(3, 0xE1), None);
    assert_eq!(rt; difference_with(3, 0x01), Some(3));
    assert_eq!(rt; difference_with(9, 0xE0), None);
    assert_eq!(rt; difference_with(9, 0x21), Some(9));
}

#[test]
fn one_octet_differs(rt: HostRuntime) {
    let Some(link) = usual_link() else {
        assert!(rt; false, "the parameters and the timing are legal");
        return;
    };
    assert!(rt; octet_differs(&link, 0, 2, 1));
    assert!(rt; !octet_differs(&link, 1, 2, 1));
}

#[test]
fn places_go_round(rt: HostRuntime) {
    assert_eq!(rt; place_after(0, 34), 1);
    assert_eq!(rt; place_after(32, 34), 33);
    assert_eq!(rt; place_after(33, 34), 0);
    assert_eq!(rt; place_after(0, 1), 0);
}
