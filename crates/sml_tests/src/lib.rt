// Examples of frames as text.
#![tactic(auto)]

#[cfg(test)]
mod tests {
    use sml::render::render;
    use std::process::Abort;
    use std::test::Fail;

    fn shows(rt: &(impl Abort + AllocGlobal), frame: &[u8], text: &str) -> Result<(), Fail> {
        let shown = render(rt.alloc(), frame)?;
        assert_eq!(rt; shown.as_str(), text);
        Ok(())
    }

    #[test]
    fn messages(rt: HostRuntime) -> Result<(), Fail> {
        shows(&rt, &[0, 1, 0x81, 1, 0, 0, 0, 0, 0, 1], "S1F1 W")?;
        shows(
            &rt,
            &[
                0, 1, 0x86, 11, 0, 0, 0, 0, 0, 1, 1, 3, 0xb1, 4, 0, 0, 0, 1, 0xb1, 4, 0, 0, 0, 3,
                1, 0,
            ],
            "S6F11 W <L [3] <U4 1> <U4 3> <L [0]>>",
        )?;
        shows(
            &rt,
            b"\x00\x01\x01\x0e\x00\x00\x00\x00\x00\x01\x01\x02\x21\x01\x00\x01\x02\x41\x06BENCH1\x41\x06000001",
            "S1F14 <L [2] <B 0> <L [2] <A \"BENCH1\"> <A \"000001\">>>",
        )?;
        shows(&rt, &[1, 2, 3], "no frame")
    }

    #[test]
    fn values(rt: HostRuntime) -> Result<(), Fail> {
        shows(
            &rt,
            &[0, 1, 6, 23, 0, 0, 0, 0, 0, 1, 0xa5, 1, 1],
            "S6F23 <U1 1>",
        )?;
        shows(
            &rt,
            &[
                0, 1, 6, 23, 0, 0, 0, 0, 0, 1, 0x71, 8, 0xff, 0xff, 0xff, 0xfe, 0, 0, 1, 0,
            ],
            "S6F23 <I4 -2 256>",
        )?;
        shows(
            &rt,
            &[0, 1, 6, 23, 0, 0, 0, 0, 0, 1, 0x91, 4, 0x3f, 0x80, 0, 0],
            "S6F23 <F4 bits 1065353216>",
        )?;
        shows(
            &rt,
            &[0, 1, 6, 23, 0, 0, 0, 0, 0, 1, 0x41, 3, 0x41, 7, 0x7f],
            "S6F23 <A \"A..\">",
        )
    }

    #[test]
    fn broken_off(rt: HostRuntime) -> Result<(), Fail> {
        shows(
            &rt,
            &[0, 1, 6, 23, 0, 0, 0, 0, 0, 1, 1, 2, 0x21, 1, 5, 0x21, 2, 5],
            "S6F23 <L [2] <B 5> <fault 15>",
        )?;
        let mut deep = [1u8; 46];
        deep[2] = 6;
        deep[3] = 23;
        shows(
            &rt,
            &deep,
            "S6F23 <L [1] <L [1] <L [1] <L [1] <L [1] <L [1] <L [1] <L [1] <L [1] <L [1] <L [1] <L [1] <L [1] <L [1] <L [1] <L [1] ...",
        )
    }
}
