// Values that are read from the words of a reader.
ghost use Rattle.whiteread.specs.Reading.{ReadCall};
ghost use Rattle.whiteread.specs.Reading.Whole.{WholeCall};
ghost use Rattle.whiteread.specs.Words.Split.{split_stream};
ghost use Rattle.whiteread.specs.LineCall.{LineCall};
ghost use Rattle.whiteread.specs.ReaderState.ReaderWords.{reader_stream};
ghost use Rattle.whiteread.specs.Located.{IsTold};
ghost use Rattle.whiteread.specs.ReaderState.{reader_row, reader_passed, reader_line};
ghost use Rattle.whiteread.specs.ReaderState.ReaderCalls.{TellsCall, InLine, OverNewLine, LendsNext};

use crate::reader::{Error, Reader, Result};
use crate::stream;
use crate::stream::{FromStream, Progress, SplitAsciiWhitespace, read_whole};
use edge_io::Source;

impl<B: Source> Reader<B> {
    /// Reads a value from the words left, across lines.
    pub fn continue_<T: FromStream>(&mut self) -> Result<T>
        ensures { TellsCall (ReadCall (reader_stream B.supply) T.reading) T.REQUEST_CHEAP_ERROR self.old result self.new }
    {
        let alloc = self.alloc;
        let answer = T::read(alloc, self);
        self.tell(answer, T::REQUEST_CHEAP_ERROR)
    }

    /// The same as `continue_`.
    pub fn parse<T: FromStream>(&mut self) -> Result<T>
        ensures { TellsCall (ReadCall (reader_stream B.supply) T.reading) T.REQUEST_CHEAP_ERROR self.old result self.new }
    {
        self.continue_()
    }

    /// Reads a value, and answers `Leftovers` where a word is left after it.
    pub fn finish<T: FromStream>(&mut self) -> Result<T>
        ensures { TellsCall (WholeCall (reader_stream B.supply) T.reading) T.REQUEST_CHEAP_ERROR self.old result self.new }
    {
        let alloc = self.alloc;
        let answer = read_whole(alloc, self);
        self.tell(answer, T::REQUEST_CHEAP_ERROR)
    }

    /// Reads a value from the words left in the current line.
    pub fn continue_line<T: FromStream>(&mut self) -> Result<T>
        ensures { TellsCall (InLine (ReadCall split_stream T.reading)) T.REQUEST_CHEAP_ERROR self.old result self.new }
    {
        let answer = self.read_in_line();
        self.tell(answer, T::REQUEST_CHEAP_ERROR)
    }

    /// Reads a value from the words left in the current line, and answers `Leftovers` where one is left after it.
    pub fn finish_line<T: FromStream>(&mut self) -> Result<T>
        ensures { TellsCall (InLine (WholeCall split_stream T.reading)) T.REQUEST_CHEAP_ERROR self.old result self.new }
    {
        let answer = self.read_whole_line();
        self.tell(answer, T::REQUEST_CHEAP_ERROR)
    }

    /// Reads a new line, and a value from its words. At the end of the input it answers `TooShort(Nothing)`.
    pub fn start_line<T: FromStream>(&mut self) -> Result<T>
        ensures { TellsCall (OverNewLine (LineCall B.supply) (InLine (ReadCall split_stream T.reading))) T.REQUEST_CHEAP_ERROR self.old result self.new }
    {
        let answer = self.read_new_line();
        self.tell(answer, T::REQUEST_CHEAP_ERROR)
    }

    /// Reads a new line, and a value from all its words. At the end of the input it answers `TooShort(Nothing)`.
    pub fn line<T: FromStream>(&mut self) -> Result<T>
        ensures { TellsCall (OverNewLine (LineCall B.supply) (InLine (WholeCall split_stream T.reading))) T.REQUEST_CHEAP_ERROR self.old result self.new }
    {
        let answer = self.read_whole_new_line();
        self.tell(answer, T::REQUEST_CHEAP_ERROR)
    }

    /// Reads a new line and lends it, its line feed included. Its words stay to be read. At the end of the input it
    /// answers `TooShort(Nothing)`. Its errors are those of a value that reads nothing. A proof that needs to know the
    /// reader after it calls `advance_line` and then `current_line`, which do the same.
    pub fn next_line(&mut self) -> Result<&str>
        ensures { LendsNext B.supply self.old result }
    {
        self.start_line::<()>()?;
        Ok(self.current_line())
    }

    /// Tells an answer, an error with its place in the current line.
    fn tell<T>(&self, answer: stream::Result<T>, cheap: bool) -> Result<T>
        ensures { IsTold cheap answer (reader_row self.now) (reader_passed self.now) (reader_line self.now) result }
    {
        match answer {
            Ok(value) => Ok(value),
            Err(why) => Err(Error::new(
                self.alloc,
                why,
                self.row,
                self.passed,
                self.current_line(),
                cheap,
            )),
        }
    }

    fn read_in_line<T: FromStream>(&mut self) -> stream::Result<T>
        ensures { InLine (ReadCall split_stream T.reading) self.old result self.new }
    {
        let mut words = SplitAsciiWhitespace::from_parts(self.current_line(), self.passed);
        let answer = T::read(self.alloc, &mut words);
        self.passed = words.position();
        answer
    }

    fn read_whole_line<T: FromStream>(&mut self) -> stream::Result<T>
        ensures { InLine (WholeCall split_stream T.reading) self.old result self.new }
    {
        let mut words = SplitAsciiWhitespace::from_parts(self.current_line(), self.passed);
        let answer = read_whole(self.alloc, &mut words);
        self.passed = words.position();
        answer
    }

    fn read_new_line<T: FromStream>(&mut self) -> stream::Result<T>
        ensures { OverNewLine (LineCall B.supply) (InLine (ReadCall split_stream T.reading)) self.old result self.new }
    {
        if !self.read_line()? {
            return Err(stream::Error::TooShort(Progress::Nothing));
        }
        self.read_in_line()
    }

    fn read_whole_new_line<T: FromStream>(&mut self) -> stream::Result<T>
        ensures { OverNewLine (LineCall B.supply) (InLine (WholeCall split_stream T.reading)) self.old result self.new }
    {
        if !self.read_line()? {
            return Err(stream::Error::TooShort(Progress::Nothing));
        }
        self.read_whole_line()
    }
}
