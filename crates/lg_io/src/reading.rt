// How far the calls of a source have read.

ghost use Rattle.std.specs.Prelude.{◌≡◌};
ghost use Rattle.lg_io.specs.Readings.{behind_read, behind_select, unread};

/// How often a text was asked for, whether reading the selected one is over, and how often it was read after that. Both counts stop at their last number.
#[derive(Clone, Copy)]
pub struct Reading {
    /// How often a text was asked for, whether it was selected or not.
    pub selects: u64,
    /// How often a text was read after a read of it that found nothing or failed.
    pub late: u64,
    /// Whether nothing more of the selected text is to be read: a read found nothing or failed.
    pub is_over: bool,
}

impl Reading {
    /// Nothing was asked for yet.
    pub fn new() -> Reading
        ensures { result ≡ unread }
    {
        Reading {
            selects: 0,
            late: 0,
            is_over: false,
        }
    }

    /// A text was asked for, and it was selected or not.
    pub fn select(&mut self, selected: bool)
        ensures { self.new ≡ behind_select self.old selected }
    {
        self.selects = self.selects.saturating_add(1);
        if selected {
            self.is_over = false;
        }
    }

    /// The selected text was read, and that ended reading, since nothing was found or the read failed, or it did not.
    pub fn read(&mut self, ends: bool)
        ensures { self.new ≡ behind_read self.old ends }
    {
        if self.is_over {
            self.late = self.late.saturating_add(1);
        }
        if ends {
            self.is_over = true;
        }
    }
}
