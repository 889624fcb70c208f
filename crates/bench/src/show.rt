use lines::line::Line;
use sml::render::render;

// A frame as it is sent, in hex.
pub fn hex(rt: &HostRuntime, bytes: &[u8]) -> anyhow::Result<()> {
    print!(rt; "    hex  ")?;
    for b in bytes {
        print!(rt; " {b:02x}")?;
    }
    println!(rt; "")?;
    Ok(())
}

// A frame without its four length bytes, as text.
pub fn text(rt: &HostRuntime, frame: &[u8]) -> anyhow::Result<()> {
    let shown = render(rt.alloc(), frame)?;
    println!(rt; "    text  {shown}")?;
    Ok(())
}

// A ledger line.
pub fn line(rt: &HostRuntime, line: Line) -> anyhow::Result<()> {
    println!(rt; "    ledger {line}")?;
    Ok(())
}
