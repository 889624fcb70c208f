ghost use Rattle.std.specs.Prelude.{◌≡◌};
ghost use Rattle.states.specs.Controls.{is_online, online_at, fallback_state};

// The control states; the last two are ON-LINE.
#[derive(Clone, Copy, PartialEq, Eq, Debug)]
pub enum Control {
    EquipmentOffline,
    Attempt,
    HostOffline,
    Local,
    Remote,
}

// Where the operator's LOCAL/REMOTE switch stands.
#[derive(Clone, Copy, PartialEq, Eq, Debug)]
pub enum Mode {
    Local,
    Remote,
}

// The state that control falls back to when an attempt to go on-line fails.
#[derive(Clone, Copy, PartialEq, Eq, Debug)]
pub enum Fallback {
    EquipmentOffline,
    HostOffline,
}

impl Control {
    pub fn is_online(self) -> bool
        ensures { result ≡ is_online self }
    {
        matches!(self, Control::Local | Control::Remote)
    }
}

// The ON-LINE state at a place of the switch.
impl From<Mode> for Control {
    ghost from_gives = { λ mode control. control ≡ online_at mode };

    fn from(mode: Mode) -> Control {
        match mode {
            Mode::Local => Control::Local,
            Mode::Remote => Control::Remote,
        }
    }
}

// The state to fall back to.
impl From<Fallback> for Control {
    ghost from_gives = { λ fallback control. control ≡ fallback_state fallback };

    fn from(fallback: Fallback) -> Control {
        match fallback {
            Fallback::EquipmentOffline => Control::EquipmentOffline,
            Fallback::HostOffline => Control::HostOffline,
        }
    }
}
