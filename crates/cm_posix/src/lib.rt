//! The model of POSIX file, pipe and memory calls that the program carries.
#![tactic(auto)]

ghost use Rattle.std.specs.Prelude.{◌≡◌};
ghost use Rattle.cm_posix.specs.Text.{posix_model};

/// The model's text.
#[tactic(auto, unfolding(crate::specs::Text::posix_model))]
pub fn posix_text() -> &'static [u8]
    ensures { result.now ≡ posix_model }
{
    b"// file, pipe and memory calls
sort Pid;
sort Fd;
sort Name;
sort Ino;
sort Byte;
sort Page;
int Count 0..1000;
int Off 0..100000;
enum Err { OK, ENOENT, EEXIST, EBADF, ESPIPE, EAGAIN, ENOMEM, EACCES, SEGV, BUS }
enum Kind { FILE, RPIPE, WPIPE }
record FdKey { p: Pid, fd: Fd }
record Desc { kind: Kind, ino: Ino, off: Off }
record Loc { ino: Ino, off: Off }
record VmKey { p: Pid, page: Page }
record Mapping { file: option(Loc), w: bool, byte: Byte }
record FdReply { err: Err, fd: option(Fd) }
record PipeReply { r: Fd, w: Fd }
record ByteReply { err: Err, byte: option(Byte) }
record Stat { ino: Ino, links: Count, len: Off }
record StatReply { err: Err, stat: option(Stat) }
record PageReply { err: Err, page: option(Page) }
state zero: Byte;
state dir: map Name -> option(Ino);
state used: map Ino -> bool;
state links: map Ino -> Count;
state len: map Ino -> Off;
state data: map Loc -> Byte;
state head: map Ino -> Off;
state tail: map Ino -> Off;
state fds: map FdKey -> option(Desc);
state vm: map VmKey -> option(Mapping);
fn bind(p: Pid, fd: Fd, d: Desc) -> Fd {
  case fds[FdKey(p, fd)] {
    none { }
    some o { assume false; }
  }
  fds[FdKey(p, fd)] = some(d);
  return fd;
}
fn fresh(i: Ino) -> Ino {
  assume not used[i];
  used[i] = true;
  return i;
}
fn stat_of(i: Ino) -> StatReply {
  return StatReply(OK, some(Stat(i, links[i], len[i])));
}
fn read_at(i: Ino, at: Off) -> ByteReply {
  if at >= len[i] { return ByteReply(OK, none(Byte)); }
  return ByteReply(OK, some(data[Loc(i, at)]));
}
fn write_at(i: Ino, at: Off, b: Byte) -> Err {
  data[Loc(i, at)] = b;
  if at >= len[i] { len[i] = Off(at + 1); }
  return OK;
}
call open(p: Pid, name: Name, creat: bool, excl: bool; internal fd: Fd, i: Ino) -> FdReply {
  case dir[name] {
    none {
      if creat {
        let n = fresh(i);
        links[n] = Count(1);
        len[n] = Off(0);
        dir[name] = some(n);
        return FdReply(OK, some(bind(p, fd, Desc(FILE, n, Off(0)))));
      }
      return FdReply(ENOENT, none(Fd));
    }
    some n {
      if creat and excl { return FdReply(EEXIST, none(Fd)); }
      return FdReply(OK, some(bind(p, fd, Desc(FILE, n, Off(0)))));
    }
  }
}
call link(from: Name, to: Name) -> Err {
  case dir[from] {
    none { return ENOENT; }
    some i {
      case dir[to] {
        none { }
        some j { return EEXIST; }
      }
      dir[to] = some(i);
      links[i] = Count(links[i] + 1);
      return OK;
    }
  }
}
call unlink(name: Name) -> Err {
  case dir[name] {
    none { return ENOENT; }
    some i {
      dir[name] = none(Ino);
      links[i] = Count(links[i] - 1);
      return OK;
    }
  }
}
call rename(from: Name, to: Name) -> Err {
  case dir[from] {
    none { return ENOENT; }
    some i {
      if from == to { return OK; }
      case dir[to] {
        none { }
        some j {
          if i == j { return OK; }
          links[j] = Count(links[j] - 1);
        }
      }
      dir[to] = some(i);
      dir[from] = none(Ino);
      return OK;
    }
  }
}
call stat(name: Name) -> StatReply {
  case dir[name] {
    none { return StatReply(ENOENT, none(Stat)); }
    some i { return stat_of(i); }
  }
}
call fstat(p: Pid, fd: Fd) -> StatReply {
  case fds[FdKey(p, fd)] {
    none { return StatReply(EBADF, none(Stat)); }
    some d { return stat_of(d.ino); }
  }
}
call lseek(p: Pid, fd: Fd, to: Off) -> Err {
  case fds[FdKey(p, fd)] {
    none { return EBADF; }
    some d {
      if d.kind != FILE { return ESPIPE; }
      fds[FdKey(p, fd)] = some(d with { off: to });
      return OK;
    }
  }
}
call close(p: Pid, fd: Fd) -> Err {
  case fds[FdKey(p, fd)] {
    none { return EBADF; }
    some d {
      fds[FdKey(p, fd)] = none(Desc);
      return OK;
    }
  }
}
call pipe(p: Pid; internal r: Fd, w: Fd, i: Ino) -> PipeReply {
  let n = fresh(i);
  head[n] = Off(0);
  tail[n] = Off(0);
  let x = bind(p, r, Desc(RPIPE, n, Off(0)));
  let y = bind(p, w, Desc(WPIPE, n, Off(0)));
  return PipeReply(x, y);
}
call read(p: Pid, fd: Fd) -> ByteReply {
  case fds[FdKey(p, fd)] {
    none { return ByteReply(EBADF, none(Byte)); }
    some d {
      if d.kind == WPIPE { return ByteReply(EBADF, none(Byte)); }
      if d.kind == RPIPE {
        let at = head[d.ino];
        if at == tail[d.ino] { return ByteReply(EAGAIN, none(Byte)); }
        head[d.ino] = Off(at + 1);
        return ByteReply(OK, some(data[Loc(d.ino, at)]));
      }
      let got = read_at(d.ino, d.off);
      case got.byte {
        none { }
        some x { fds[FdKey(p, fd)] = some(d with { off: Off(d.off + 1) }); }
      }
      return got;
    }
  }
}
call write(p: Pid, fd: Fd, b: Byte) -> Err {
  case fds[FdKey(p, fd)] {
    none { return EBADF; }
    some d {
      if d.kind == RPIPE { return EBADF; }
      if d.kind == WPIPE {
        let at = tail[d.ino];
        data[Loc(d.ino, at)] = b;
        tail[d.ino] = Off(at + 1);
        return OK;
      }
      fds[FdKey(p, fd)] = some(d with { off: Off(d.off + 1) });
      return write_at(d.ino, d.off, b);
    }
  }
}
call pread(p: Pid, fd: Fd, at: Off) -> ByteReply {
  case fds[FdKey(p, fd)] {
    none { return ByteReply(EBADF, none(Byte)); }
    some d {
      if d.kind != FILE { return ByteReply(ESPIPE, none(Byte)); }
      return read_at(d.ino, at);
    }
  }
}
call pwrite(p: Pid, fd: Fd, at: Off, b: Byte) -> Err {
  case fds[FdKey(p, fd)] {
    none { return EBADF; }
    some d {
      if d.kind != FILE { return ESPIPE; }
      return write_at(d.ino, at, b);
    }
  }
}
call mmap(p: Pid, w: bool, anon: bool, fd: Fd, at: Off; internal page: Page) -> PageReply {
  case vm[VmKey(p, page)] {
    none { }
    some o { assume false; }
  }
  if anon {
    vm[VmKey(p, page)] = some(Mapping(none(Loc), w, zero));
    return PageReply(OK, some(page));
  }
  case fds[FdKey(p, fd)] {
    none { return PageReply(EBADF, none(Page)); }
    some d {
      if d.kind != FILE { return PageReply(EACCES, none(Page)); }
      vm[VmKey(p, page)] = some(Mapping(some(Loc(d.ino, at)), w, zero));
      return PageReply(OK, some(page));
    }
  }
}
call munmap(p: Pid, page: Page) -> Err {
  vm[VmKey(p, page)] = none(Mapping);
  return OK;
}
call mprotect(p: Pid, page: Page, w: bool) -> Err {
  case vm[VmKey(p, page)] {
    none { return ENOMEM; }
    some m {
      vm[VmKey(p, page)] = some(m with { w: w });
      return OK;
    }
  }
}
call memread(p: Pid, page: Page) -> ByteReply {
  case vm[VmKey(p, page)] {
    none { return ByteReply(SEGV, none(Byte)); }
    some m {
      case m.file {
        none { return ByteReply(OK, some(m.byte)); }
        some l {
          if l.off >= len[l.ino] { return ByteReply(BUS, none(Byte)); }
          return ByteReply(OK, some(data[l]));
        }
      }
    }
  }
}
call memwrite(p: Pid, page: Page, b: Byte) -> Err {
  case vm[VmKey(p, page)] {
    none { return SEGV; }
    some m {
      if not m.w { return SEGV; }
      case m.file {
        none {
          vm[VmKey(p, page)] = some(m with { byte: b });
          return OK;
        }
        some l {
          if l.off >= len[l.ino] { return BUS; }
          data[l] = b;
          return OK;
        }
      }
    }
  }
}
"
}

#[cfg(test)]
mod tests;
