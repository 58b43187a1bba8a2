// The worked sheets and plans, and banks of different make.
#![tactic(auto)]

#[cfg(test)]
mod banks;

#[cfg(test)]
mod tests {
    use fault::Fault;
    use plan_check::check;
    use sheet::{read_plan, read_wiring, write_plan};
    use std::alloc::{AllocError, Global};
    use std::test::Fail;
    use wiring::{Cell, Cells, Ports};

    /// Links 0–1 and 1–2, one layer.
    const LINE: [u8; 22] = [
        3, 76, 0, 16, 0, 4, 78, 0, 20, 0, 1, 86, 0, 21, 0, 1, 0, 1, 1, 2, 3, 1,
    ];

    /// A plan for it.
    const PLAN: [u8; 30] = [
        2, 78, 0, 11, 0, 1, 80, 0, 12, 0, 18, 3, 255, 255, 1, 0, 3, 0, 0, 0, 255, 255, 3, 0, 0, 0,
        2, 0, 255, 255,
    ];

    /// Links 0–1, 1–2 and 2–0, with room for the number of layers.
    const TRIANGLE: [u8; 23] = [
        3, 76, 0, 16, 0, 6, 78, 0, 22, 0, 1, 86, 0, 23, 0, 1, 0, 1, 1, 2, 2, 0, 3,
    ];

    /// What the display shows of an answer, or a word where the call is done.
    fn shown<T: Drop>(
        heap: Global,
        answer: Result<T, Fault>,
        done: &str,
    ) -> Result<String, AllocError> {
        match answer {
            Ok(_) => format!(in heap; "{done}"),
            Err(fault) => format!(in heap; "{fault}"),
        }
    }

    /// The check of a plan sheet for the triangle: every route goes upward round it, destination 1 in a layer.
    fn judged(layers: u8, layer: u8) -> Result<(), Fault> {
        let mut wiring = [layers; 24];
        wiring[0..23].copy_from_slice(&TRIANGLE);
        let plan = [
            2, 78, 0, 11, 0, 1, 80, 0, 12, 0, 18, 3, 255, 255, 2, 0, 4, 0, 0, layer, 255, 255, 4,
            layer, 0, 0, 2, 0, 255, 255,
        ];
        check(&wiring, &plan)
    }

    #[test]
    fn line_is_accepted(rt: HostRuntime) -> Result<(), Fail> {
        let wiring = &read_wiring(&LINE)?;
        assert_eq!(rt; wiring.nodes(), 3);
        assert_eq!(rt; wiring.layers(), 1);
        assert_eq!(rt; wiring.channels(), 4);
        assert_eq!(rt; wiring.from(2), 1);
        assert_eq!(rt; wiring.into(2), 2);
        let ports = Ports::new(wiring);
        assert!(rt; ports.own(1) == [1u8, 2].as_slice());
        Ok(())
    }

    #[test]
    fn refusals_are_shown(rt: HostRuntime) -> Result<(), Fail> {
        let cut_off = [
            3, 76, 0, 16, 0, 2, 78, 0, 18, 0, 1, 86, 0, 19, 0, 1, 0, 1, 3, 1,
        ];
        let alone = [3, 76, 0, 16, 0, 0, 78, 0, 16, 0, 1, 86, 0, 17, 0, 1, 1, 1];
        let cases = [
            (read_wiring(&[]), "1 0"),
            (read_wiring(&cut_off), "8 2"),
            (read_wiring(&alone), "accepted"),
        ];
        for (answer, display) in cases {
            assert_eq!(rt; shown(rt.alloc(), answer, "accepted")?.as_str(), display);
        }
        Ok(())
    }

    #[test]
    fn triangle_is_judged(rt: HostRuntime) -> Result<(), Fail> {
        let cases = [
            (judged(1, 0), "21 0"),
            (judged(2, 1), "passes"),
            (judged(1, 1), "19 1 0"),
        ];
        for (answer, display) in cases {
            assert_eq!(rt; shown(rt.alloc(), answer, "passes")?.as_str(), display);
        }
        Ok(())
    }

    #[test]
    fn plan_is_kept(rt: HostRuntime) -> Result<(), Fail> {
        let plan = read_plan(&PLAN)?;
        assert_eq!(rt; plan.nodes, 3);
        assert_eq!(rt;
            plan.cell(0, 1),
            Cell::Hop {
                channel: 1,
                layer: 0,
            }
        );
        assert_eq!(rt; plan.cell(2, 2), Cell::Empty);
        let mut memory = [7u8; 31];
        assert_eq!(rt; write_plan(3, &plan, &mut memory)?, 30);
        assert!(rt; &memory[0..30] == PLAN.as_slice());
        assert_eq!(rt; memory[30], 7);
        Ok(())
    }
}
